//! A law of record files.
ghost use Rattle.std.specs.Prelude.{◌≡◌, ◌≤◌, ℕ, List, length, take};
ghost use Rattle.block_types.specs.declared.record.Record.{Record};
ghost use Rattle.block_types.specs.declared.record.Version.{Version};
ghost use Rattle.disk.specs.File.{header, IsFileOf};

/// A law, which does nothing when it runs: a file of records has five bytes or more, and begins with the letters of its version.
pub fn files_have_letters()
    ensures { (v : Version) (rs : List Record) (file : List ℕ) → IsFileOf v rs file → (5 ≤ length file) × (take 4 file ≡ header v) }
{}
