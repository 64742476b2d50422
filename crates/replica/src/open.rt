//! A replica that takes groups.
ghost use Rattle.std.specs.Prelude.{[], ◌∷◌, ◌≡◌, ◌≢◌, ◌⊎◌, ◌+◌, ◌<◌, ◌≤◌, true, false, None, Some, IfOk, IfErr, IsOk, OnOk, OnErr, MatchResult};
ghost use Rattle.block_types.specs.Limits.{IsTarget};
ghost use Rattle.replica.specs.Groups.{text_length};
ghost use Rattle.replica.specs.Content.{new_content, appended, fenced, frozen};
ghost use Rattle.replica.specs.Kept.{held_as};
ghost use Rattle.replica.specs.Room.{HasRoom};
ghost use Rattle.replica.specs.Put.{put_fault};
ghost use Rattle.replica.specs.Reading.{groups_to};
ghost use Rattle.replica.specs.Replay.{is_boundary, cut_to};

use crate::fault::{PastEnd, PutFault, Stale};
use crate::frozen::FrozenReplica;
use crate::kept::Kept;
use crate::phase::Phase;
use crate::placed::PlacedGroups;
use crate::sealed::SealedReplica;
use block_types::{Group, Nodes};
use std::alloc::{AllocError, Global};
use std::marker::Model;

/// An open replica: it takes groups at its end, while its length is below its target.
pub struct OpenReplica {
    kept: Kept,
}

// Written out, so that a crate above that lets one go has no proof of what is in it.
impl Drop for OpenReplica {
    fn drop(self) {
        let OpenReplica { kept: _ } = self;
    }
}

impl Model for OpenReplica {
    ghost use Rattle.std.specs.Prelude.{◌<◌, ◌+◌};
    ghost use Rattle.block_types.specs.Limits.{IsTarget};
    ghost use Rattle.replica.specs.declared.phase.Phase.TheVariants.{Open};
    ghost use Rattle.replica.specs.Groups.{text_length};
    ghost use Rattle.replica.specs.Content.{StoredContent};

    ghost Value = { StoredContent };

    ghost use Rattle.replica.specs.Kept.{held_as};

    ghost view = { λ r. held_as Open r.kept };

    ghost invariant = { λ r. IsTarget r.kept.target × (text_length r.kept.held.groups < r.kept.target + 4194304) };
}

impl OpenReplica {
    /// An empty replica on these places; takes no memory. The target is from 4,096 to 16,777,216 bytes.
    pub fn new(alloc: Global, places: Nodes, target: u32, fence: u64) -> OpenReplica
        requires { IsTarget target }
        ensures { result.content ≡ new_content places target fence }
    {
        OpenReplica {
            kept: Kept {
                places,
                target,
                fence,
                held: PlacedGroups::new(alloc),
            },
        }
    }

    /// That it is open.
    pub(crate) fn state(&self) -> Phase
        ensures content { result ≡ self.now.content.phase }
        ensures value { result ≡ Phase.Open }
    {
        // Read, so that what it keeps is known to the proof.
        let _target = self.kept.target;
        Phase::Open
    }

    /// How many payload bytes there are, at most 20,971,519.
    pub(crate) fn len(&self) -> u32
        ensures value { result ≡ text_length self.now.content.groups }
        ensures bound { result < self.now.content.target + 4194304 }
        ensures target { IsTarget self.now.content.target }
    {
        self.kept.held.len()
    }

    /// What it keeps.
    pub(crate) fn kept(&self) -> &Kept
        ensures { held_as Phase.Open result.now ≡ self.now }
    {
        &self.kept
    }

    /// Makes room for these groups. Without memory nothing has changed.
    pub(crate) fn reserve(&mut self, groups: &[Group]) -> Result<(), AllocError>
        ensures same { self.new.content ≡ self.old.content }
        ensures room { OnOk result (HasRoom self.new.room groups.now) }
        ensures ready { HasRoom self.old.room groups.now → IsOk result }
    {
        self.kept.held.reserve(groups)
    }

    /// As `put`, where it stands. A refusal leaves it as it was.
    pub(crate) fn put_in_place(
        &mut self,
        generation: u64,
        offset: u32,
        group: &Group,
    ) -> Result<(), PutFault>
        ensures ok { OnOk result (self.new.content ≡ appended self.old.content group.now) }
        ensures refused { OnErr result (self.new.content ≡ self.old.content) }
        ensures fault { MatchResult result (λ _. put_fault self.old.content generation offset ≡ None)
            (λ e. (e ≡ PutFault.Memory) ⊎ (put_fault self.old.content generation offset ≡ Some e)) }
        ensures room { HasRoom self.old.room (group.now ∷ []) → IfErr result (λ e. e ≢ PutFault.Memory) }
    {
        if generation < self.kept.fence {
            return Err(PutFault::Stale);
        }
        if offset != self.kept.held.len() {
            return Err(PutFault::PastEnd);
        }
        if self.kept.held.len() >= self.kept.target {
            return Err(PutFault::ExtentFull);
        }
        match self.kept.held.put(group) {
            Ok(()) => Ok(()),
            Err(_full) => Err(PutFault::Memory),
        }
    }

    /// Adds a group of a generation at an offset, which is to be the replica's length. The first reason refuses it:
    /// 3 (the generation is below the fence), 8 (another offset), 7 (the length has reached the target), 22. A refusal
    /// hands the replica and the group back as they were. Where there is room for the group it takes no memory.
    pub fn put(
        self,
        generation: u64,
        offset: u32,
        group: Group,
    ) -> Result<OpenReplica, (PutFault, OpenReplica, Group)>
        ensures ok { IfOk result (λ r. r.content ≡ appended self.content group) }
        ensures refused { IfErr result (λ e. (e.1.content ≡ self.content) × (e.2 ≡ group)) }
        ensures fault { MatchResult result (λ _. put_fault self.content generation offset ≡ None)
            (λ e. (e.0 ≡ PutFault.Memory) ⊎ (put_fault self.content generation offset ≡ Some e.0)) }
        ensures room { HasRoom self.room (group ∷ []) → IfErr result (λ e. e.0 ≢ PutFault.Memory) }
    {
        let mut open = self;
        match open.put_in_place(generation, offset, &group) {
            Ok(()) => Ok(open),
            Err(fault) => Err((fault, open, group)),
        }
    }

    /// As `raise`, where it stands. A refusal leaves it as it was.
    pub(crate) fn raise_in_place(&mut self, generation: u64) -> Result<(), Stale>
        ensures ok { OnOk result (self.new.content ≡ fenced self.old.content generation) }
        ensures refused { OnErr result (self.new.content ≡ self.old.content) }
        ensures fault { MatchResult result (λ _. self.old.content.fence ≤ generation) (λ _. generation < self.old.content.fence) }
    {
        if generation < self.kept.fence {
            return Err(Stale);
        }
        self.kept.fence = generation;
        Ok(())
    }

    /// Raises the fence to a generation. One below the fence is refused (3), which hands the replica back as it was.
    pub fn raise(self, generation: u64) -> Result<OpenReplica, (Stale, OpenReplica)>
        ensures ok { IfOk result (λ r. r.content ≡ fenced self.content generation) }
        ensures refused { IfErr result (λ e. e.1.content ≡ self.content) }
        ensures fault { MatchResult result (λ _. self.content.fence ≤ generation) (λ _. generation < self.content.fence) }
    {
        let mut open = self;
        match open.raise_in_place(generation) {
            Ok(()) => Ok(open),
            Err(stale) => Err((stale, open)),
        }
    }

    /// Takes no more groups.
    pub fn freeze(self) -> FrozenReplica
        ensures { result.content ≡ frozen self.content }
    {
        let OpenReplica { kept } = self;
        FrozenReplica::of(kept)
    }

    /// Keeps the groups up to a length, for good. Where no group ends there it is refused (8), which hands the replica
    /// back as it was.
    pub fn seal(self, length: u32) -> Result<SealedReplica, (PastEnd, OpenReplica)>
        ensures ok { IfOk result (λ r. r.content ≡ cut_to self.content (groups_to length self.content.groups)) }
        ensures refused { IfErr result (λ e. e.1.content ≡ self.content) }
        ensures fault { MatchResult result (λ _. is_boundary (groups_to length self.content.groups) ≡ true)
            (λ _. is_boundary (groups_to length self.content.groups) ≡ false) }
    {
        let OpenReplica { mut kept } = self;
        if kept.held.cut(length) {
            Ok(SealedReplica::of(kept))
        } else {
            Err((PastEnd, OpenReplica { kept }))
        }
    }
}
