//! Appends that wait at a primary.
use block_types::Group;
use wire::{ActorId, ReqNo};

/// An append that the primary has on its disk, and that waits until both secondaries have it: where its group stands,
/// and who is to be answered with which request number.
pub struct WaitingAppend {
    pub offset: u32,
    pub group: Group,
    pub asker: ActorId,
    pub request: ReqNo,
}

// Written out, so that a crate above that lets one go has no proof of what is in it.
impl Drop for WaitingAppend {
    fn drop(self) {
        let WaitingAppend {
            offset: _,
            group: _,
            asker: _,
            request: _,
        } = self;
    }
}
