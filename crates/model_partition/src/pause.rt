//! What a range takes while a split or a merge of it is under way.
ghost use Rattle.std.specs.Prelude.{◌≡◌};
ghost use Rattle.model_partition.specs.Range as specs;

/// Whether a range takes what users ask. One that is split or merged takes nothing more from a moment on, so that its streams
/// come to an end.
#[derive(Clone, Copy, PartialEq, Eq)]
pub enum Pause {
    /// It takes transactions and Gets.
    Off,
    /// It takes Gets alone, until the transactions that wait have all been appended.
    AfterQueue,
    /// It takes nothing.
    On,
}

impl Pause {
    /// Whether transactions are refused (34).
    pub fn takes_no_transaction(&self) -> bool
        ensures { result ≡ specs.takes_no_transaction self.now }
    {
        match self {
            Pause::Off => false,
            Pause::AfterQueue => true,
            Pause::On => true,
        }
    }

    /// Whether Gets are refused too (34), and no checkpoint or split begins.
    pub fn is_paused(&self) -> bool
        ensures { result ≡ specs.is_paused self.now }
    {
        match self {
            Pause::Off => false,
            Pause::AfterQueue => false,
            Pause::On => true,
        }
    }
}
