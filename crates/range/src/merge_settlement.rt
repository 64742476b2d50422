//! What comes of a merge behind a step of one of its ranges.
ghost use Rattle.std.specs.Prelude.{◌≡◌, ◌≤◌, ◌==◌, List, Some, None, true, false, length, is_some};
ghost use Rattle.std.specs.BTreeMap.{is_at};
ghost use Rattle.std.specs.Map.{set_value};
ghost use Rattle.std.specs.Ordering.{nat_cmp};
ghost use Rattle.model_partition.specs.Range.{RangeState as RangeStateOf};
ghost use Rattle.model_partition.specs.Merges.{checkpoint_again, pausing};
ghost use Rattle.model_partition.specs.Server.{assigned, assigned_merging, given_up_merging, merge_of, merge_with, range_of, set_range, side_of_range, stepped_alone, stepped_merging, with_freed};
ghost use Rattle.model_partition.specs.declared.table_note.TableNote.{TableNote};
ghost use Rattle.range_core.specs.Steps as steps;
ghost use Rattle.range_merge.specs.Steps.{paused_if};
ghost use Rattle.range.specs.ServerStep.{IsShort, asks_at, behind_sent, both_set, follows_at, gives_up_at, merge_again, merge_room, outcome};

use crate::both_ranges::are_held;
use crate::merge_jobs::merge_with;
use crate::sent::Sent;
use crate::server::RangeServer;
use model_partition::{MergeJob, MergeSide};
use range_core::RangeStep;
use range_merge::{
    MergeFollowUp, MergeRoom, StepBehind, follow, free, give_up, give_up_checkpoint,
    other_checkpoint,
};
use wire::{Packet, RangeId};

/// Which of the two of a merge a range is.
fn side_of(job: &MergeJob, range: u64) -> MergeSide
    ensures { result ≡ side_of_range job.now range }
{
    if job.left.0 == range {
        MergeSide::Left
    } else {
        MergeSide::Right
    }
}

impl RangeServer {
    /// A range whose merge is no more is served on, or stays paused.
    fn free(&mut self, range: u64)
        ensures { self.new ≡ record self.old { ranges = with_freed self.old.ranges range } }
    {
        if let Some(state) = self.ranges.get_mut(&range) {
            free(state);
        }
    }

    /// A merge that loses a range goes, and what is left of its ranges is freed.
    fn end_merge(&mut self, left: u64)
        ensures { self.new ≡ assigned_merging self.old left (merge_of self.old.merges left) }
    {
        if let Some(job) = self.merges.remove(&left) {
            self.free(job.left.0);
            self.free(job.right.0);
        }
    }

    /// The merge that a range is part of goes, if there is one. It takes no memory.
    pub(crate) fn end_merge_of(&mut self, range: u64)
        ensures { self.new ≡ assigned self.old (merge_with self.old.merges range) }
    {
        if let Some(left) = merge_with(&self.merges, range) {
            self.end_merge(left);
        }
    }

    /// A range goes, and its merge with it.
    fn end_merged(&mut self, range: u64, left: u64, taken: RangeStep) -> Sent
        requires short { steps.IsShort taken }
        ensures value { record {
          after = assigned_merging (record self.old {
            context = record self.old.context { count = taken.count };
            ranges = set_range self.old.ranges range None;
          }) left (merge_of self.old.merges left);
          packets = taken.packets;
          notes = taken.notes;
        } ≡ outcome result self.new }
        ensures short { IsShort result }
    {
        self.context.count = taken.count;
        drop(self.ranges.remove(&range));
        self.end_merge(left);
        let (packets, notes) = taken.into_parts();
        Sent { packets, notes }
    }

    /// A range that is held takes no transaction any more.
    fn pause(&mut self, range: RangeId)
        ensures { (r : RangeStateOf) → range_of self.old.ranges range ≡ Some r
            → self.new ≡ record self.old { ranges = set_value (is_at (nat_cmp range)) self.old.ranges (pausing r) } }
    {
        if let Some(state) = self.ranges.get_mut(&range.0) {
            state.pause();
        }
    }

    /// Both ranges of a merge take no transaction any more, if it says so.
    fn pause_both(&mut self, low: RangeId, high: RangeId, pauses: bool)
        requires apart { low == high ≡ false }
        ensures { (l r : RangeStateOf) → range_of self.old.ranges low ≡ Some l → range_of self.old.ranges high ≡ Some r
            → self.new ≡ record self.old { ranges = both_set self.old.ranges low high (paused_if pauses l) (paused_if pauses r) } }
    {
        if pauses {
            self.pause(low);
            self.pause(high);
        }
    }

    /// What comes of a merge behind a step that did not drop its range, and sent these packets.
    fn follow_merge(
        &mut self,
        range: u64,
        left: u64,
        room: Option<MergeRoom>,
        sent: Vec<Packet>,
    ) -> Vec<Packet>
        requires room { room ≡ merge_room (merge_of self.old.merges left) }
        requires few { length sent.items ≤ 1400 }
        ensures value { (notes : List TableNote) → behind_sent sent.items notes (follows_at range self.old left (merge_of self.old.merges left))
            ≡ record { after = self.new; packets = result.items; notes = notes } }
        ensures few { length result.items ≤ 1401 }
    {
        let Some(job) = self.merges.get_mut(&left) else {
            return sent;
        };
        let Some(room) = room else {
            return sent;
        };
        let (low, high) = (job.left, job.right);
        if low == high {
            return sent;
        }
        let Some(one) = self.ranges.get(&low.0) else {
            return sent;
        };
        let Some(other) = self.ranges.get(&high.0) else {
            return sent;
        };
        let side = side_of(job, range);
        let behind = StepBehind { side, room, sent };
        let MergeFollowUp { taken, pauses } = follow(&self.context, one, other, job, behind);
        self.context.count = taken.count;
        self.pause_both(low, high, pauses);
        taken.packets
    }

    /// What a step of a range of a merge leaves, and what the merge then does, with the room that was made before.
    pub(crate) fn settle_merged(
        &mut self,
        range: u64,
        left: u64,
        taken: RangeStep,
        room: Option<MergeRoom>,
    ) -> Sent
        requires held { is_some (merge_of self.old.merges left) ≡ true }
        requires room { room ≡ merge_room (merge_of self.old.merges left) }
        requires short { steps.IsShort taken }
        ensures value { (r : RangeStateOf) → range_of self.old.ranges range ≡ Some r
            → stepped_merging self.old range left (merge_of self.old.merges left) (steps.outcome taken r) ≡ outcome result self.new }
        ensures short { IsShort result }
    {
        if taken.dropped {
            return self.end_merged(range, left, taken);
        }
        self.context.count = taken.count;
        let (packets, notes) = taken.into_parts();
        Sent {
            packets: self.follow_merge(range, left, room, packets),
            notes,
        }
    }

    /// The checkpoint that a range makes for its merge gives up, behind the other range, which was told to, and sent these packets.
    fn ask_checkpoint_again(
        &mut self,
        range: RangeId,
        room: MergeRoom,
        sent: Vec<Packet>,
    ) -> Vec<Packet>
        requires held { is_some (range_of self.old.ranges range) ≡ true }
        requires few { length sent.items ≤ 1400 }
        ensures value { (r : RangeStateOf) (notes : List TableNote) → range_of self.old.ranges range ≡ Some r
            → behind_sent sent.items notes (stepped_alone self.old range (checkpoint_again self.old.context r))
            ≡ record { after = self.new; packets = result.items; notes = notes } }
        ensures few { length result.items ≤ 1404 }
    {
        let Some(state) = self.ranges.get_mut(&range.0) else {
            unreachable!()
        };
        let taken = give_up_checkpoint(&self.context, state, room, sent);
        self.context.count = taken.count;
        taken.packets
    }

    /// What the merge itself asks again, behind a range that was not dropped, and sent these packets.
    fn ask_again_for(&mut self, left: u64, room: MergeRoom, sent: Vec<Packet>) -> Vec<Packet>
        requires room { Some room ≡ merge_again (merge_of self.old.merges left) }
        requires few { length sent.items ≤ 1400 }
        ensures value { (notes : List TableNote) → behind_sent sent.items notes (asks_at self.old left (merge_of self.old.merges left))
            ≡ record { after = self.new; packets = result.items; notes = notes } }
        ensures few { length result.items ≤ 1401 }
    {
        let Some(job) = self.merges.get_mut(&left) else {
            return sent;
        };
        let (low, high) = (job.left, job.right);
        if low == high {
            return sent;
        }
        let Some(one) = self.ranges.get(&low.0) else {
            return sent;
        };
        let Some(other) = self.ranges.get(&high.0) else {
            return sent;
        };
        let taken = give_up(&self.context, one, other, job, room, sent);
        self.context.count = taken.count;
        taken.packets
    }

    /// What a merge does behind a range that was told to give up, was not dropped, and sent these packets.
    fn ask_merge_again(
        &mut self,
        range: u64,
        left: u64,
        room: Option<MergeRoom>,
        sent: Vec<Packet>,
    ) -> Vec<Packet>
        requires room { room ≡ merge_again (merge_of self.old.merges left) }
        requires few { length sent.items ≤ 1400 }
        ensures value { (notes : List TableNote) → behind_sent sent.items notes (gives_up_at range self.old left (merge_of self.old.merges left))
            ≡ record { after = self.new; packets = result.items; notes = notes } }
        ensures few { length result.items ≤ 1404 }
    {
        // For the clause: the merges stand in the order of their numbers.
        let _count = self.merges.len();
        let Some(job) = self.merges.get(&left) else {
            return sent;
        };
        let Some(room) = room else {
            return sent;
        };
        let other = other_checkpoint(job, side_of(job, range));
        let (low, high) = (job.left, job.right);
        let are_both = are_held(&self.ranges, job);
        let Some(side) = other else {
            return self.ask_again_for(left, room, sent);
        };
        if !are_both {
            return sent;
        }
        match side {
            MergeSide::Left => self.ask_checkpoint_again(low, room, sent),
            MergeSide::Right => self.ask_checkpoint_again(high, room, sent),
        }
    }

    /// What giving up on what a range of a merge waits for leaves, and what the merge then asks again, with the room that was made before.
    pub(crate) fn settle_merged_again(
        &mut self,
        range: u64,
        left: u64,
        taken: RangeStep,
        room: Option<MergeRoom>,
    ) -> Sent
        requires held { is_some (merge_of self.old.merges left) ≡ true }
        requires room { room ≡ merge_again (merge_of self.old.merges left) }
        requires short { steps.IsShort taken }
        ensures value { (r : RangeStateOf) → range_of self.old.ranges range ≡ Some r
            → given_up_merging self.old range left (merge_of self.old.merges left) (steps.outcome taken r) ≡ outcome result self.new }
        ensures short { IsShort result }
    {
        if taken.dropped {
            return self.end_merged(range, left, taken);
        }
        self.context.count = taken.count;
        let (packets, notes) = taken.into_parts();
        Sent {
            packets: self.ask_merge_again(range, left, room, packets),
            notes,
        }
    }
}
