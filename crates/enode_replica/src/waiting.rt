//! The appends that wait at a primary.
ghost use Rattle.std.specs.Prelude.{◌≡◌, ◌≤◌, ◌<◌, ◌+◌, ◌^◌, Some, [], drop, length, nat_le, slice_get, slice_index};
ghost use Rattle.std.specs.List.Sorted.{IsStrictlyIncreasing};
ghost use Rattle.std.specs.VecDeque.{deque_len};
ghost use Rattle.model_streams.specs.Node.{covered as covers};
ghost use Rattle.enode_replica.specs.Ends.{ends_of};

use model_streams::WaitingAppend;
use std::alloc::Global;
use std::collections::VecDeque;
use std::marker::Model;

/// So many appends wait at a primary for its secondaries, and no more.
const MAX_WAITING: usize = 256;

/// The appends that a primary has on its disk, and that wait until both secondaries have them: a queue, the oldest first,
/// whose ends rise. Its value is the list of them. The end of each is kept beside it, in bytes from the beginning of the
/// extent.
pub struct Waiting {
    pub(crate) appends: VecDeque<WaitingAppend>,
    pub(crate) ends: VecDeque<u32>,
}

// Written out, so that a crate above that lets one go has no proof of what is in it.
impl Drop for Waiting {
    fn drop(self) {
        let Waiting {
            appends: _,
            ends: _,
        } = self;
    }
}

impl Model for Waiting {
    ghost use Rattle.std.specs.Prelude.{List};
    ghost use Rattle.model_streams.specs.declared.waiting_append.WaitingAppend.{WaitingAppend};
    ghost use Rattle.enode_replica.specs.Ends.{AreEnds};

    ghost Value = { List WaitingAppend };

    ghost view = { λ w. w.appends.items };

    ghost invariant = { λ w. AreEnds w.appends.items w.ends.items };
}

impl Waiting {
    /// A queue in which nothing waits; takes no memory.
    pub fn new(alloc: Global) -> Waiting
        ensures { result ≡ [] }
    {
        Waiting {
            appends: VecDeque::new(alloc),
            ends: VecDeque::new(alloc),
        }
    }

    /// How many wait.
    pub fn len(&self) -> usize
        ensures value { result ≡ length self.now }
        ensures short { result < 2 ^ 63 }
    {
        self.appends.len()
    }

    /// Whether so many wait that no more is taken: 256 or more.
    pub fn is_full(&self) -> bool
        ensures { result ≡ nat_le 256 (length self.now) }
    {
        self.len() >= MAX_WAITING
    }

    /// The append at an index, the oldest at 0.
    pub fn get(&self, i: usize) -> &WaitingAppend
        requires { i < length self.now }
        ensures { slice_get self.now i ≡ Some result.now }
    {
        &self.appends[i]
    }

    /// The end of the append at an index, in bytes from the beginning of the extent: above the ends before it. Each look is
    /// counted.
    pub fn end_at(&self, i: usize, looks: &mut u64) -> u32
        requires within { i < length self.now }
        requires counts { looks.old + 1 < 2 ^ 64 }
        ensures value { result ≡ slice_index (ends_of self.now) i }
        ensures one { looks.new ≡ looks.old + 1 }
        ensures rising { IsStrictlyIncreasing (ends_of self.now) }
    {
        *looks += 1;
        self.ends[i]
    }

    /// How many of them, from the oldest on, end within a length: those before the first whose end is above it. No end is
    /// looked at behind that one, and none twice.
    pub fn covered(&self, upto: u32, looks: &mut u64) -> usize
        requires { looks.old < 2 ^ 63 }
        ensures value { result ≡ covers upto self.now }
        ensures within { result ≤ length self.now }
        ensures bound { looks.new ≤ looks.old + result + 1 }
    {
        let count = self.len();
        for i in 0..count {
            if self.end_at(i, looks) > upto {
                return i;
            }
        }
        count
    }

    /// The oldest of them wait no more.
    pub fn drop_first(&mut self, count: usize)
        requires { count ≤ length self.old }
        ensures { self.new ≡ drop count self.old }
    {
        drop_front(&mut self.appends, count);
        drop_front(&mut self.ends, count);
    }

    /// None of them waits any more.
    pub fn clear(&mut self)
        ensures { self.new ≡ [] }
    {
        self.appends.clear();
        self.ends.clear();
    }
}

/// The first of the queue go.
fn drop_front<T: Drop>(queue: &mut VecDeque<T>, count: usize)
    requires { count ≤ deque_len queue.old }
    ensures { queue.new.items ≡ drop count queue.old.items }
{
    for _ in 0..count {
        // What is taken out goes, and is not looked at.
        let _first = queue.pop_front();
    }
}
