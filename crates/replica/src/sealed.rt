//! A replica that never changes again.
ghost use Rattle.std.specs.Prelude.{◌≡◌, ◌<◌, ◌≤◌, IsOk, OnOk};
ghost use Rattle.block_types.specs.Limits.{IsTarget};
ghost use Rattle.replica.specs.Groups.{text_length};
ghost use Rattle.replica.specs.Kept.{held_as};
ghost use Rattle.replica.specs.Room.{HasRoom};
ghost use Rattle.replica.specs.Replay.{longest};

use crate::kept::Kept;
use crate::phase::Phase;
use block_types::Group;
use std::alloc::AllocError;
use std::marker::Model;

/// A sealed replica: its groups stay as they are.
pub struct SealedReplica {
    kept: Kept,
}

// Written out, so that a crate above that lets one go has no proof of what is in it.
impl Drop for SealedReplica {
    fn drop(self) {
        let SealedReplica { kept: _ } = self;
    }
}

impl Model for SealedReplica {
    ghost use Rattle.std.specs.Prelude.{◌≤◌};
    ghost use Rattle.block_types.specs.Limits.{IsTarget};
    ghost use Rattle.replica.specs.declared.phase.Phase.TheVariants.{Sealed};
    ghost use Rattle.replica.specs.Groups.{text_length};
    ghost use Rattle.replica.specs.Content.{StoredContent};

    ghost Value = { StoredContent };

    ghost use Rattle.replica.specs.Kept.{held_as};
    ghost use Rattle.replica.specs.Replay.{longest};

    ghost view = { λ r. held_as Sealed r.kept };

    ghost invariant = { λ r. IsTarget r.kept.target × (text_length r.kept.held.groups ≤ longest) };
}

impl SealedReplica {
    /// What it keeps, for good.
    pub(crate) fn of(kept: Kept) -> SealedReplica
        requires target { IsTarget kept.target }
        requires bound { text_length kept.held.groups ≤ longest }
        ensures { result ≡ held_as Phase.Sealed kept }
    {
        SealedReplica { kept }
    }

    /// That it is sealed.
    pub(crate) fn state(&self) -> Phase
        ensures content { result ≡ self.now.content.phase }
        ensures value { result ≡ Phase.Sealed }
    {
        // Read, so that what it keeps is known to the proof.
        let _target = self.kept.target;
        Phase::Sealed
    }

    /// How many payload bytes there are, at most 20,971,519.
    pub(crate) fn len(&self) -> u32
        ensures value { result ≡ text_length self.now.content.groups }
        ensures bound { result ≤ longest }
        ensures target { IsTarget self.now.content.target }
    {
        self.kept.held.len()
    }

    /// What it keeps.
    pub(crate) fn kept(&self) -> &Kept
        ensures { held_as Phase.Sealed result.now ≡ self.now }
    {
        &self.kept
    }

    /// Makes room for these groups. Without memory nothing has changed.
    pub(crate) fn reserve(&mut self, groups: &[Group]) -> Result<(), AllocError>
        ensures same { self.new.content ≡ self.old.content }
        ensures room { OnOk result (HasRoom self.new.room groups.now) }
        ensures ready { HasRoom self.old.room groups.now → IsOk result }
    {
        self.kept.held.reserve(groups)
    }
}
