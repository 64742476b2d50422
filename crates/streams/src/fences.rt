//! The fences of the four streams of a range.
ghost use Rattle.std.specs.Prelude.{◌≡◌};
ghost use Rattle.streams.specs.Table.{are_below, are_all};

use wire::Fence;

/// The fences of the four streams of a range.
#[derive(Clone, Copy)]
pub(crate) struct Fences {
    pub(crate) metadata: Fence,
    pub(crate) log: Fence,
    pub(crate) row_data: Fence,
    pub(crate) blob_data: Fence,
}

impl Fences {
    /// Whether a generation is above each of them.
    pub(crate) fn are_below(self, generation: Fence) -> bool
        ensures { result ≡ are_below self generation }
    {
        self.metadata < generation
            && self.log < generation
            && self.row_data < generation
            && self.blob_data < generation
    }

    /// Whether a generation is each of them.
    pub(crate) fn are(self, generation: Fence) -> bool
        ensures { result ≡ are_all self generation }
    {
        self.metadata == generation
            && self.log == generation
            && self.row_data == generation
            && self.blob_data == generation
    }
}
