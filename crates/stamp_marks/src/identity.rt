//! Which marks are meant.
use std::marker::Brand;

/// Which two lists of marks are meant, and which numbers of a setup, as a type. Each call of a function that is generic in it
/// picks its own, so that all that names the type speaks of the same lists.
pub trait Identity {
    ghost use Rattle.boxcar.specs.Table.{Shelves};
    ghost use Rattle.std.specs.Prelude.{ℕ, List};

    /// The marks of actors' events.
    ghost events: { Shelves };

    /// The marks of prefixes of the trace.
    ghost prefixes: { Shelves };

    /// The numbers of the setup.
    ghost numbers: { List ℕ };
}

impl Identity for Brand {
    ghost use Rattle.std.specs.Prelude.{[]};

    ghost events = { record { tag = []; buckets = [] } };

    ghost prefixes = { record { tag = []; buckets = [] } };

    ghost numbers = { [] };
}
