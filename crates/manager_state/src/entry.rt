//! Extents as the table keeps them.
ghost use Rattle.std.specs.Prelude.{◌≡◌, ◌<◌, ◌++◌, ◌∷◌, [], vec_len, vec_capacity};
ghost use Rattle.manager_state.specs.Extents.{new_entry, with_length, without_length};

use block_types::Nodes;
use model_streams::{Asker, Extent, PlaceReport};
use wire::Fence;

/// An extent without its length: that stands in the table's map of lengths, once the extent is sealed.
#[derive(Clone, Copy)]
pub(crate) struct ExtentEntry {
    pub(crate) places: Nodes,
    pub(crate) fence: Fence,
    pub(crate) primary: PlaceReport,
    pub(crate) second: PlaceReport,
    pub(crate) third: PlaceReport,
    pub(crate) asker: Option<Asker>,
}

impl ExtentEntry {
    /// One of which no place has told anything.
    pub(crate) fn new(places: Nodes, fence: Fence) -> ExtentEntry
        ensures { result ≡ new_entry places fence }
    {
        let unheard = PlaceReport {
            frozen: None,
            sealed: false,
        };
        ExtentEntry {
            places,
            fence,
            primary: unheard,
            second: unheard,
            third: unheard,
            asker: None,
        }
    }

    /// That of an extent.
    pub(crate) fn of(extent: &Extent) -> ExtentEntry
        ensures { result ≡ without_length extent.now }
    {
        ExtentEntry {
            places: extent.places,
            fence: extent.fence,
            primary: extent.primary,
            second: extent.second,
            third: extent.third,
            asker: extent.asker,
        }
    }

    /// The extent, with its length where it is sealed.
    pub(crate) fn with_length(&self, sealed: Option<u32>) -> Extent
        ensures { result ≡ with_length self.now sealed }
    {
        Extent {
            places: self.places,
            fence: self.fence,
            sealed,
            primary: self.primary,
            second: self.second,
            third: self.third,
            asker: self.asker,
        }
    }
}

/// One more entry, of which no place has told anything, into room that was made.
pub(crate) fn push_new(entries: &mut Vec<ExtentEntry>, places: Nodes, fence: Fence)
    requires { vec_len entries.old < vec_capacity entries.old }
    ensures { entries.new.items ≡ entries.old.items ++ new_entry places fence ∷ [] }
{
    // It does not fail: there is room.
    let _room_was_made = entries.extend_from_slice(&[ExtentEntry::new(places, fence)]);
}
