//! Where groups end, in order, so that a place among them is found by few looks.
ghost use Rattle.std.specs.Prelude.{◌≡◌, ◌+◌, ◌<◌, ◌≤◌, ◌^◌, ◌++◌, [], ◌∷◌, length, nat_le, get_or, take, vec_len, vec_capacity, IsOk, OnOk};
ghost use Rattle.std.specs.List.{filter};
ghost use Rattle.replica.specs.Ends.{RiseAbove, binary_digits};

use std::alloc::{AllocError, Global};
use std::marker::Model;

/// Where each group ends, in bytes from the start: each above the one before. Its value is the list of the ends, and for
/// how many more there is memory.
pub struct Ends {
    ends: Vec<u32>,
}

// Written out, so that a crate above that lets one go has no proof of what is in it.
impl Drop for Ends {
    fn drop(self) {
        let Ends { ends: _ } = self;
    }
}

impl Model for Ends {
    ghost use Rattle.std.specs.Prelude.{◌-◌, vec_capacity, vec_len};
    ghost use Rattle.replica.specs.Ends.{EndList, RiseAbove};

    ghost Value = { EndList };

    ghost view = { λ e. record { ends = e.ends.items; room = vec_capacity e.ends - vec_len e.ends } };

    ghost invariant = { λ e. RiseAbove 0 e.ends.items };
}

impl Ends {
    /// No ends; takes no memory.
    pub fn new(alloc: Global) -> Ends
        ensures { result.ends ≡ [] }
    {
        Ends {
            ends: Vec::new(alloc),
        }
    }

    /// How many there are.
    pub fn len(&self) -> usize
        ensures value { result ≡ length self.now.ends }
        ensures rise { RiseAbove 0 self.now.ends }
    {
        self.ends.len()
    }

    /// Makes room for so many more. An error is out of memory (22), and nothing has changed but room.
    pub fn reserve(&mut self, count: usize) -> Result<(), AllocError>
        ensures same { self.new.ends ≡ self.old.ends }
        ensures room { OnOk result (count ≤ self.new.room) }
        ensures more { self.old.room ≤ self.new.room }
        ensures ready { count ≤ self.old.room → IsOk result }
    {
        self.ends.reserve(count)
    }

    /// Adds an end above all others, into room that was made.
    pub fn push(&mut self, end: u32)
        requires room { 0 < self.old.room }
        requires rises { RiseAbove 0 (self.old.ends ++ end ∷ []) }
        ensures value { self.new.ends ≡ self.old.ends ++ end ∷ [] }
        ensures room { self.old.room ≤ self.new.room + 1 }
    {
        self.ends.push_reserved(end);
    }

    /// Keeps the first ones, so many.
    pub fn truncate(&mut self, count: usize)
        ensures { self.new.ends ≡ take count self.old.ends }
    {
        self.ends.truncate(count);
    }

    /// The end with this index, which is one probe more.
    pub fn end_at(&self, index: usize, probes: &mut u64) -> u32
        requires within { index < length self.now.ends }
        requires counts { probes.old + 1 < 2 ^ 64 }
        ensures value { result ≡ get_or self.now.ends index 0 }
        ensures one { probes.new ≡ probes.old + 1 }
    {
        *probes += 1;
        self.ends[index]
    }

    /// How many ends are at or below an offset. It adds at most as many probes as their number has binary digits.
    pub fn find(&self, offset: u32, probes: &mut u64) -> usize
        requires small { probes.old < 2 ^ 63 }
        ensures value { result ≡ length (filter (λ e. nat_le e offset) self.now.ends) }
        ensures bound { probes.new ≤ probes.old + binary_digits (length self.now.ends) }
    {
        let mut low = 0;
        let mut high = self.len();
        while low < high {
            let middle = low + (high - low) / 2;
            if self.end_at(middle, probes) <= offset {
                low = middle + 1;
            } else {
                high = middle;
            }
        }
        low
    }
}
