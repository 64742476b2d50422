//! A range that is split or merged takes less, and then nothing.
ghost use Rattle.std.specs.Prelude.{◌≡◌, if◌then◌else◌};
ghost use Rattle.model_partition.specs.Splits.{is_drained};
ghost use Rattle.model_partition.specs.declared.pause.Pause.TheVariants.{Off, AfterQueue, On};

use crate::state::RangeState;
use model_partition::Pause;

impl RangeState {
    /// Whether no transaction waits, and none is being appended.
    pub fn is_drained(&self) -> bool
        ensures { result ≡ is_drained self.now }
    {
        !self.queue.is_out() && self.queue.count() == 0
    }

    /// Transactions are refused from now on (34). Where none waits and none is being appended Gets are refused too, and no
    /// checkpoint begins; else Gets are still answered.
    pub fn pause(&mut self)
        ensures { self.new ≡ record self.old { pause = if is_drained self.old then On else AfterQueue } }
    {
        if self.is_drained() {
            self.pause = Pause::On;
        } else {
            self.pause = Pause::AfterQueue;
        }
    }

    /// Transactions and Gets are taken again.
    pub fn resume(&mut self)
        ensures { self.new ≡ record self.old { pause = Off } }
    {
        self.pause = Pause::Off;
    }
}
