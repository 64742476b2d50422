//! The marks of a run.
use crate::history::History;
use crate::mark_list::MarkList;
use crate::prefix::Prefix;
use std::alloc::{AllocError, Global};

/// The marks of the events that actors took, each about its event, and those of what passes have seen of a list of entries, each
/// about the number of its pass.
#[derive(Drop)]
pub struct Marks<E, S, X> {
    pub events: MarkList<E, History<E, S>>,
    pub prefixes: MarkList<usize, Prefix<X>>,
}

impl<E, S, X> Marks<E, S, X> {
    /// Two lists without marks. 22 where there was no memory for them.
    pub fn new(alloc: Global) -> Result<Marks<E, S, X>, AllocError> {
        Ok(Marks {
            events: MarkList::new(alloc)?,
            prefixes: MarkList::new(alloc)?,
        })
    }
}
