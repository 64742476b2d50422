//! The indexes of a range.
ghost use Rattle.std.specs.Prelude.{◌≡◌, ◌∷◌, OnOk, OnErr};
ghost use Rattle.std.specs.List.{AllByRecursion};
ghost use Rattle.checkpoint.specs.Lookup.{HasIndex};

use crate::installed_index::InstalledIndex;
use std::alloc::AllocError;
use std::marker::Model;

/// Indexes that were read, the newest first. Each is in range.
pub struct InstalledIndexes {
    items: Vec<InstalledIndex>,
}

// Written out, so that a crate above that lets one go has no proof of what is in it.
impl Drop for InstalledIndexes {
    fn drop(self) {
        let InstalledIndexes { items: _ } = self;
    }
}

impl Model for InstalledIndexes {
    ghost use Rattle.std.specs.Prelude.{List};
    ghost use Rattle.std.specs.List.{AllByRecursion};
    ghost use Rattle.checkpoint.specs.declared.installed_index.InstalledIndex.{InstalledIndex};
    ghost use Rattle.checkpoint.specs.Lookup.{HasIndex};

    ghost Value = { List InstalledIndex };

    ghost view = { λ list. list.items.items };

    ghost invariant = { λ list. AllByRecursion HasIndex list.items.items };
}

impl InstalledIndexes {
    /// These indexes, the newest first. That each is in range is the caller's condition.
    pub fn of(items: Vec<InstalledIndex>) -> InstalledIndexes
        requires { AllByRecursion HasIndex items.items }
        ensures { result ≡ items.items }
    {
        InstalledIndexes { items }
    }

    /// The newest first.
    pub fn as_slice(&self) -> &[InstalledIndex]
        ensures is { result.now ≡ self.now }
        ensures each { AllByRecursion HasIndex result.now }
    {
        &self.items
    }

    /// This index, which is in range, becomes the newest. Where memory runs out (22) nothing has changed.
    pub fn install(&mut self, index: InstalledIndex) -> Result<(), AllocError>
        requires { HasIndex index }
        ensures ok { OnOk result (self.new ≡ index ∷ self.old) }
        ensures err { OnErr result (self.new ≡ self.old) }
    {
        self.items.insert(0, index)?;
        Ok(())
    }
}
