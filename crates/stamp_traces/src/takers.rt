//! Who takes an event.
ghost use Rattle.std.specs.Prelude.{◌≡◌, ◌+◌, ◌<◌, ◌^◌};

/// The actors that take an event: those from `first` on, up to but without `end`. Several take a moment, and nobody what is only told.
#[derive(Clone, Copy, Debug, PartialEq, Eq)]
pub struct Takers {
    pub first: usize,
    pub end: usize,
}

impl Takers {
    /// This actor alone.
    pub fn one(number: usize) -> Takers
        requires { number + 1 < 2 ^ 64 }
        ensures { result ≡ record { first = number; end = number + 1 } }
    {
        Takers {
            first: number,
            end: number + 1,
        }
    }

    /// No actor.
    pub fn nobody() -> Takers
        ensures { result ≡ record { first = 0; end = 0 } }
    {
        Takers { first: 0, end: 0 }
    }
}
