//! What a client knows.
ghost use Rattle.std.specs.Prelude.{◌≡◌};
ghost use Rattle.client.specs.Client.{awaits, last_extent};

use crate::client::{StreamClient, last};
use crate::replies::awaits;
use wire::{ReqNo, StreamExtent};

impl StreamClient {
    /// The last of them, if there is one.
    pub fn last_extent(&self) -> Option<StreamExtent>
        ensures { result ≡ last_extent self.now.extents }
    {
        last(&self.extents)
    }

    /// Whether an answer of this number is waited for.
    pub fn awaits(&self, request: &ReqNo) -> bool
        ensures { result ≡ awaits self.now.job request.now }
    {
        awaits(self.job, request)
    }
}
