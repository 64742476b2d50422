//! Laws, which do nothing when they run.
ghost use Rattle.checkpoint.specs.Contents as specs;

/// A law: over indexes of entries in ascending order, each with its pages as far as they are at hand, a look-up answers the cell
/// that the key has in the map which the indexes make together, and that there is none where the map has none or says that the key
/// was deleted; and a page that it wants is not at hand.
pub fn lookup_is_the_map()
    ensures { specs.LookupIsTheMap }
{}

/// A law: what is merged is the map that the indexes make together, at each key that is merged.
pub fn merged_is_the_map()
    ensures map { specs.MergedIsTheMap }

    // So pages can be written of it.
    ensures entries { specs.MergedAreEntries }
{}

/// A law: what is combined has of each key the newer cell, or else the older one, and no key that was deleted.
pub fn combined_is_the_map()
    ensures map { specs.CombinedIsTheMap }

    // So pages can be written of it.
    ensures entries { specs.CombinedAreEntries }
{}
