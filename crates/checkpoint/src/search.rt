//! The look-up of a key.
ghost use Rattle.std.specs.Prelude.{◌≡◌, true, IfOk};
ghost use Rattle.std.specs.List.{AllByRecursion};
ghost use Rattle.checkpoint_format.specs.Index.{IsIndex, are_ascending};
ghost use Rattle.checkpoint.specs.Lookup as specs;

use crate::installed_index::InstalledIndex;
use crate::page_lookup::Lookup;
use crate::pages::Pages;
use checkpoint_format::{Index, PageAt};
use memtable::Place;
use std::alloc::AllocError;

/// The place of the one page that can have the key: the last that does not begin above it. It is found by halves.
///
/// That the first keys of the pages ascend is the caller's condition.
pub fn page_for(pages: &[PageAt], key: &[u8]) -> Option<Place>
    requires { are_ascending pages.now ≡ true }
    ensures { result ≡ specs.page_for pages.now key.now }
{
    let begun = pages.partition_point(|page| !key.cmp(page.first.as_slice()).is_lt());
    if begun == 0 {
        None
    } else {
        Some(pages[begun - 1].place)
    }
}

/// What one index says of the key, if its page has the key or is wanted.
fn in_index<P: Pages>(pages: &P, index: &Index, key: &[u8]) -> Result<Option<Lookup>, AllocError>
    requires { IsIndex index.now }
    ensures { IfOk result (λ found. found ≡ specs.looked_in (P.source pages.now) index.now key.now) }
{
    let Some(place) = page_for(&index.pages.items, key) else {
        return Ok(None);
    };
    pages.find_at(&place, key)
}

/// What the indexes say of the key, the newest first, each within its keys alone: the cell of the first that has the key, or that
/// there is none, also where that one says that the key was deleted; or the place of a page that is not at hand, and that has to be
/// seen first. Bytes that spell no page are not that page's. One page of an index is looked into, which is found by halves.
///
/// An error is out of memory (22), and says nothing of the key. That each index is one is the caller's condition.
pub fn lookup<P: Pages>(
    installed: &[InstalledIndex],
    pages: &P,
    key: &[u8],
) -> Result<Lookup, AllocError>
    requires { AllByRecursion specs.HasIndex installed.now }
    ensures { IfOk result (λ found. found ≡ specs.looked_up (P.source pages.now) installed.now key.now) }
{
    for one in installed {
        if one.keys.contains(key) {
            if let Some(answer) = in_index(pages, &one.index, key)? {
                return Ok(answer);
            }
        }
    }
    Ok(Lookup::Absent)
}
