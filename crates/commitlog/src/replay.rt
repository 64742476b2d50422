//! Replay: each number of a log once, in order, however often its groups repeat.
ghost use Rattle.std.specs.Prelude.{◌≡◌, ◌==◌, suc, ◌+◌, ◌<◌, ◌≤◌, ◌^◌, ◌++◌, ◌⊎◌, List, ℕ, [], ◌∷◌, MatchResult, IfOk, if◌then◌else◌};
ghost use Rattle.commitlog.specs.Replay.{next_of, taken};

use block_types::BlockFault;
use std::marker::Model;

/// Which number of a log comes next. Its value is that number.
///
/// A line is what replay has taken so far, the item of number 1 first, so the next number is one more than its length.
#[derive(Drop)]
pub struct Replay {
    next: u64,
}

impl Model for Replay {
    ghost use Rattle.std.specs.Prelude.{ℕ};

    ghost Value = { ℕ };

    ghost view = { λ replay. replay.next };
}

impl Replay {
    /// Replay that has taken every number below `next`.
    pub fn new(next: u64) -> Replay
        ensures { result ≡ next }
    {
        Replay { next }
    }

    /// The number that comes next.
    pub fn next(&self) -> u64
        ensures { result ≡ self.now }
    {
        self.next
    }

    /// Takes the item of this number: whether it is new, as a lower number was taken before.
    ///
    /// It is refused `Damaged` (21) where the number is above the next, and where it is 2^64 - 1, which has no next;
    /// then nothing has changed.
    pub fn take(&mut self, number: u64) -> Result<bool, BlockFault>
        ensures taken { MatchResult result
            (λ is_new. (number ≤ self.old) × (self.new ≡ self.old + (if is_new then 1 else 0)))
            (λ e. (e ≡ BlockFault.Damaged) × (self.new ≡ self.old) × ((self.old < number) ⊎ (suc number ≡ 2 ^ 64))) }
        ensures new { IfOk result (λ is_new. is_new ≡ (number == self.old)) }

        // A line takes the item exactly where it is new.
        ensures line { (line : List ℕ) (item : ℕ) → next_of line ≡ self.old
            → IfOk result (λ is_new. (taken line (record { first = number; items = item ∷ [] }) ≡ line ++ (if is_new then item ∷ [] else []))
            × (next_of (taken line (record { first = number; items = item ∷ [] })) ≡ self.new)) }
    {
        if number > self.next || number == u64::MAX {
            return Err(BlockFault::Damaged);
        }
        if number < self.next {
            return Ok(false);
        }
        self.next = number + 1;
        Ok(true)
    }
}
