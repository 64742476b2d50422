//! Which records fit each version.
ghost use Rattle.std.specs.Prelude.{◌≡◌, IsTrue, not};
ghost use Rattle.std.specs.List.{AllByRecursion};
ghost use Rattle.block_types.specs.declared.record.Version.{Version};
ghost use Rattle.blocks.specs.Record.{Fits};
ghost use Rattle.blocks.specs.Sizes.{is_long_fill};

use block_types::Record;

// As many bytes as an extent can have: the largest target less one, and then a whole group.
const MAX_FILL: u32 = 20_971_519;

/// Whether a record that fits one version is known to fit each: so is every record but a `Fill` of more than 20,971,519 bytes.
#[tactic(auto, using(crate::proofs::Lengths::fits_each))]
pub fn fits_all(written: &Record) -> bool
    requires { (v : Version) × Fits v written.now }
    ensures fits { IsTrue result → (v : Version) → Fits v written.now }
    ensures value { result ≡ not (is_long_fill written.now) }
{
    match written {
        Record::Fill { from, length, .. } => length.saturating_sub(*from) <= MAX_FILL,
        _ => true,
    }
}

/// Whether records that fit one version are known to fit each, as `fits_all` says of one.
pub fn all_fit(records: &[Record]) -> bool
    requires { (v : Version) × AllByRecursion (Fits v) records.now }
    ensures { IsTrue result → (v : Version) → AllByRecursion (Fits v) records.now }
{
    for written in records {
        if !fits_all(written) {
            return false;
        }
    }
    true
}
