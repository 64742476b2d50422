//! A replica that takes nothing but its seal.
ghost use Rattle.std.specs.Prelude.{◌≡◌, ◌≢◌, ◌⊎◌, ◌+◌, ◌<◌, ◌≤◌, ◌++◌, true, false, length, None, Some, IfOk, IfErr, IsOk, OnOk, MatchResult};
ghost use Rattle.block_types.specs.Limits.{IsTarget};
ghost use Rattle.replica.specs.Groups.{text_length};
ghost use Rattle.replica.specs.Content.{sealed_with};
ghost use Rattle.replica.specs.Kept.{held_as};
ghost use Rattle.replica.specs.Room.{HasRoom};
ghost use Rattle.replica.specs.Put.{fill_fault};
ghost use Rattle.replica.specs.Reading.{groups_to};
ghost use Rattle.replica.specs.Replay.{is_boundary, is_tail, cut_to, longest};

use crate::fault::{FillFault, PastEnd};
use crate::kept::Kept;
use crate::phase::Phase;
use crate::sealed::SealedReplica;
use block_types::{Group, Groups};
use std::alloc::AllocError;
use std::marker::Model;

/// A frozen replica: it takes no more groups at its end, but what brings it to the length at which it is sealed.
pub struct FrozenReplica {
    kept: Kept,
}

// Written out, so that a crate above that lets one go has no proof of what is in it.
impl Drop for FrozenReplica {
    fn drop(self) {
        let FrozenReplica { kept: _ } = self;
    }
}

impl Model for FrozenReplica {
    ghost use Rattle.std.specs.Prelude.{◌<◌, ◌+◌};
    ghost use Rattle.block_types.specs.Limits.{IsTarget};
    ghost use Rattle.replica.specs.declared.phase.Phase.TheVariants.{Frozen};
    ghost use Rattle.replica.specs.Groups.{text_length};
    ghost use Rattle.replica.specs.Content.{StoredContent};

    ghost Value = { StoredContent };

    ghost use Rattle.replica.specs.Kept.{held_as};

    ghost view = { λ r. held_as Frozen r.kept };

    ghost invariant = { λ r. IsTarget r.kept.target × (text_length r.kept.held.groups < r.kept.target + 4194304) };
}

impl FrozenReplica {
    /// What it keeps, once it takes no more groups.
    pub(crate) fn of(kept: Kept) -> FrozenReplica
        requires target { IsTarget kept.target }
        requires bound { text_length kept.held.groups < kept.target + 4194304 }
        ensures { result ≡ held_as Phase.Frozen kept }
    {
        FrozenReplica { kept }
    }

    /// That it is frozen.
    pub(crate) fn state(&self) -> Phase
        ensures content { result ≡ self.now.content.phase }
        ensures value { result ≡ Phase.Frozen }
    {
        // Read, so that what it keeps is known to the proof.
        let _target = self.kept.target;
        Phase::Frozen
    }

    /// How many payload bytes there are, at most 20,971,519.
    pub(crate) fn len(&self) -> u32
        ensures value { result ≡ text_length self.now.content.groups }
        ensures bound { result < self.now.content.target + 4194304 }
        ensures target { IsTarget self.now.content.target }
    {
        self.kept.held.len()
    }

    /// What it keeps.
    pub(crate) fn kept(&self) -> &Kept
        ensures { held_as Phase.Frozen result.now ≡ self.now }
    {
        &self.kept
    }

    /// Makes room for these groups. Without memory nothing has changed.
    pub(crate) fn reserve(&mut self, groups: &[Group]) -> Result<(), AllocError>
        ensures same { self.new.content ≡ self.old.content }
        ensures room { OnOk result (HasRoom self.new.room groups.now) }
        ensures ready { HasRoom self.old.room groups.now → IsOk result }
    {
        self.kept.held.reserve(groups)
    }

    /// Keeps the groups up to a length, for good. Where no group ends there it is refused (8), which hands the replica
    /// back as it was.
    pub fn seal(self, length: u32) -> Result<SealedReplica, (PastEnd, FrozenReplica)>
        ensures ok { IfOk result (λ r. r.content ≡ cut_to self.content (groups_to length self.content.groups)) }
        ensures refused { IfErr result (λ e. e.1.content ≡ self.content) }
        ensures fault { MatchResult result (λ _. is_boundary (groups_to length self.content.groups) ≡ true)
            (λ _. is_boundary (groups_to length self.content.groups) ≡ false) }
    {
        let FrozenReplica { mut kept } = self;
        if kept.held.cut(length) {
            Ok(SealedReplica::of(kept))
        } else {
            Err((PastEnd, FrozenReplica { kept }))
        }
    }

    /// Adds groups at the end, into room that was made, for good.
    fn fill(self, groups: &[Group]) -> SealedReplica
        requires room { HasRoom self.room groups.now }
        requires bound { text_length self.content.groups + text_length groups.now ≤ longest }
        ensures { result.content ≡ sealed_with self.content (self.content.groups ++ groups.now) }
    {
        let FrozenReplica { mut kept } = self;
        kept.held.extend(groups);
        SealedReplica::of(kept)
    }

    /// Adds groups that bring it from its end to a length, for good. The first reason refuses them: 8 (there are none),
    /// 8 (`from` is not its length), 7 (the length is above 20,971,519), 8 (they do not end at the length), 22. A
    /// refusal hands the replica and the groups back as they were. Where there is room for the groups it takes no memory.
    pub fn fill_tail(
        self,
        from: u32,
        end: u32,
        groups: Groups,
    ) -> Result<SealedReplica, (FillFault, FrozenReplica, Groups)>
        ensures ok { IfOk result (λ r. r.content ≡ sealed_with self.content (self.content.groups ++ groups)) }
        ensures refused { IfErr result (λ e. (e.1.content ≡ self.content) × (e.2 ≡ groups)) }
        ensures taken { MatchResult result (λ _. is_tail self.content from end groups ≡ true)
            (λ e. (e.0 ≡ FillFault.Memory) ⊎ (is_tail self.content from end groups ≡ false)) }
        ensures fault { MatchResult result (λ _. fill_fault self.content from end groups ≡ None)
            (λ e. (e.0 ≡ FillFault.Memory) ⊎ (fill_fault self.content from end groups ≡ Some e.0)) }
        ensures room { HasRoom self.room groups → IfErr result (λ e. e.0 ≢ FillFault.Memory) }
    {
        if let Some(fault) = self.kept.fill_fault(from, end, &groups) {
            return Err((fault, self, groups));
        }
        let mut frozen = self;
        match frozen.reserve(&groups.items) {
            Ok(()) => Ok(frozen.fill(&groups.items)),
            Err(_refused) => Err((FillFault::Memory, frozen, groups)),
        }
    }
}
