//! Tests of a replica's state.
ghost use Rattle.std.specs.Prelude.{◌≡◌};
ghost use Rattle.replica.specs.Replay.{is_frozen as is_frozen_phase, is_open as is_open_phase, is_sealed as is_sealed_phase};

use replica::Phase;

/// Whether it takes groups at its end.
pub fn is_open(phase: Phase) -> bool
    ensures { result ≡ is_open_phase phase }
{
    phase == Phase::Open
}

/// Whether it takes only the groups that bring it to its length.
pub fn is_frozen(phase: Phase) -> bool
    ensures { result ≡ is_frozen_phase phase }
{
    phase == Phase::Frozen
}

/// Whether it takes nothing more.
pub fn is_sealed(phase: Phase) -> bool
    ensures { result ≡ is_sealed_phase phase }
{
    phase == Phase::Sealed
}
