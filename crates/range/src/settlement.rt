//! What a step of a range leaves at its server, and what then comes of its split or its merge.
ghost use Rattle.std.specs.Prelude.{◌≡◌, ◌≤◌, List, Some, None, true, length};
ghost use Rattle.model_partition.specs.Range.{RangeState as RangeStateOf};
ghost use Rattle.model_partition.specs.Server.{range_of, split_of, merge_with, stepped, stepped_apart, given_up, given_up_with, ended_with};
ghost use Rattle.model_partition.specs.declared.table_note.TableNote.{TableNote};
ghost use Rattle.range_core.specs.Steps as steps;
ghost use Rattle.range.specs.ServerStep.{IsShort, merge_again, merge_by, merge_room, outcome, sends, split_again, split_room, step_to};

use crate::merge_jobs::merge_with;
use crate::rooms::StepRoom;
use crate::sent::Sent;
use crate::server::RangeServer;
use range_core::RangeStep;
use range_split::{SplitRoom, follow, give_up};
use wire::Packet;

impl RangeServer {
    /// The range goes, and its split with it.
    fn end(&mut self, range: u64, taken: RangeStep) -> Sent
        requires dropped { taken.dropped ≡ true }
        requires short { steps.IsShort taken }
        ensures value { ended_with self.old range (sends taken None) ≡ outcome result self.new }
        ensures short { IsShort result }
    {
        self.context.count = taken.count;
        drop(self.ranges.remove(&range));
        drop(self.splits.remove(&range));
        let (packets, notes) = taken.into_parts();
        Sent { packets, notes }
    }

    /// What comes of the split of a range behind a step that did not drop it, and sent these packets.
    #[tactic(auto, using(crate::proofs::Entries::set_same, crate::proofs::Settled::followed_so, crate::proofs::Settled::nothing_followed, crate::proofs::Settled::none_followed))]
    fn follow(&mut self, range: u64, room: Option<SplitRoom>, sent: Vec<Packet>) -> Vec<Packet>
        requires room { room ≡ split_room (split_of self.old.splits range) }
        requires few { length sent.items ≤ 1400 }
        ensures value { (r : RangeStateOf) (notes : List TableNote) → range_of self.old.ranges range ≡ Some r
            → stepped_apart self.old range (step_to self.old r sent.items notes)
            ≡ record { after = self.new; packets = result.items; notes = notes } }
        ensures few { length result.items ≤ 1401 }
    {
        let Some(job) = self.splits.get_mut(&range) else {
            return sent;
        };
        let Some(room) = room else {
            return sent;
        };
        let Some(state) = self.ranges.get_mut(&range) else {
            return sent;
        };
        let taken = follow(&self.context, state, job, room, sent);
        self.context.count = taken.count;
        taken.packets
    }

    /// What a step of a range that is no part of a merge leaves, and what its split then does.
    #[tactic(auto, using(crate::proofs::Settled::stepped_dropped))]
    fn settle_apart(&mut self, range: u64, taken: RangeStep, room: Option<SplitRoom>) -> Sent
        requires room { room ≡ split_room (split_of self.old.splits range) }
        requires short { steps.IsShort taken }
        ensures value { (r : RangeStateOf) → range_of self.old.ranges range ≡ Some r
            → stepped_apart self.old range (steps.outcome taken r) ≡ outcome result self.new }
        ensures short { IsShort result }
    {
        if taken.dropped {
            return self.end(range, taken);
        }
        self.context.count = taken.count;
        let (packets, notes) = taken.into_parts();
        Sent {
            packets: self.follow(range, room, packets),
            notes,
        }
    }

    /// What the split of a range asks again, behind a range that was not dropped, and sent these packets.
    #[tactic(auto, using(crate::proofs::Entries::set_same, crate::proofs::Settled::asked_so, crate::proofs::Settled::none_asked))]
    fn ask_again(&mut self, range: u64, room: Option<SplitRoom>, sent: Vec<Packet>) -> Vec<Packet>
        requires room { room ≡ split_again (split_of self.old.splits range) }
        requires few { length sent.items ≤ 1400 }
        ensures value { (r : RangeStateOf) (notes : List TableNote) → range_of self.old.ranges range ≡ Some r
            → given_up_with self.old range (split_of self.old.splits range) (step_to self.old r sent.items notes)
            ≡ record { after = self.new; packets = result.items; notes = notes } }
        ensures few { length result.items ≤ 1401 }
    {
        let Some(job) = self.splits.get_mut(&range) else {
            return sent;
        };
        let Some(room) = room else {
            return sent;
        };
        let Some(state) = self.ranges.get(&range) else {
            return sent;
        };
        let taken = give_up(&self.context, state, job, room, sent);
        self.context.count = taken.count;
        taken.packets
    }

    /// What giving up on what a range that is no part of a merge waits for leaves, and what its split then asks again.
    #[tactic(auto, using(crate::proofs::Settled::given_up_dropped))]
    fn settle_apart_again(&mut self, range: u64, taken: RangeStep, room: Option<SplitRoom>) -> Sent
        requires room { room ≡ split_again (split_of self.old.splits range) }
        requires short { steps.IsShort taken }
        ensures value { (r : RangeStateOf) → range_of self.old.ranges range ≡ Some r
            → given_up_with self.old range (split_of self.old.splits range) (steps.outcome taken r) ≡ outcome result self.new }
        ensures short { IsShort result }
    {
        if taken.dropped {
            return self.end(range, taken);
        }
        self.context.count = taken.count;
        let (packets, notes) = taken.into_parts();
        Sent {
            packets: self.ask_again(range, room, packets),
            notes,
        }
    }

    /// What a step of a range leaves, and what its split or its merge then does, with the room that was made before.
    pub(crate) fn settle(&mut self, range: u64, taken: RangeStep, room: StepRoom) -> Sent
        requires split { room.split ≡ split_room (split_of self.old.splits range) }
        requires merge { room.merge ≡ merge_room (merge_by self.old.merges range) }
        requires short { steps.IsShort taken }
        ensures value { (r : RangeStateOf) → range_of self.old.ranges range ≡ Some r
            → stepped self.old range (steps.outcome taken r) ≡ outcome result self.new }
        ensures short { IsShort result }
    {
        let StepRoom { split, merge } = room;
        let Some(left) = merge_with(&self.merges, range) else {
            return self.settle_apart(range, taken, split);
        };
        if !self.merges.contains_key(&left) {
            return self.settle_apart(range, taken, split);
        }
        self.settle_merged(range, left, taken, merge)
    }

    /// What giving up on what a range waits for leaves, and what its split or its merge then asks again, with the room that was made
    /// before.
    pub(crate) fn settle_again(&mut self, range: u64, taken: RangeStep, room: StepRoom) -> Sent
        requires split { room.split ≡ split_again (split_of self.old.splits range) }
        requires merge { room.merge ≡ merge_again (merge_by self.old.merges range) }
        requires short { steps.IsShort taken }
        ensures value { (r : RangeStateOf) → range_of self.old.ranges range ≡ Some r
            → given_up self.old range (merge_with self.old.merges range) (steps.outcome taken r) ≡ outcome result self.new }
        ensures short { IsShort result }
    {
        let StepRoom { split, merge } = room;
        let Some(left) = merge_with(&self.merges, range) else {
            return self.settle_apart_again(range, taken, split);
        };
        if !self.merges.contains_key(&left) {
            return self.settle_apart_again(range, taken, split);
        }
        self.settle_merged_again(range, left, taken, merge)
    }
}
