//! The tickets of users.
ghost use Rattle.std.specs.Prelude.{◌≡◌, [], IfOk};
ghost use Rattle.script_run.specs.Tickets.{Takes};

use std::alloc::{AllocError, Global};
use std::collections::BTreeMap;
use std::marker::Model;

/// How many tickets each user has taken.
#[derive(Drop)]
pub struct Tickets {
    taken: BTreeMap<u64, u64>,
}

impl Model for Tickets {
    ghost use Rattle.std.specs.Prelude.{ℕ, List};

    ghost Value = { List (ℕ × ℕ) };

    ghost view = { λ t. t.taken.entries };
}

impl Tickets {
    /// None is taken yet.
    pub fn new(alloc: Global) -> Tickets
        ensures { result ≡ [] }
    {
        Tickets {
            taken: BTreeMap::new(alloc),
        }
    }

    /// The next ticket of the user, from 0. An error is out of memory (22).
    pub fn take(&mut self, user: u64) -> Result<u64, AllocError>
        ensures { IfOk result (λ ticket. Takes self.old user ticket self.new) }
    {
        let ticket = self.taken.get(&user).copied().unwrap_or(0);
        self.taken.insert(user, ticket.saturating_add(1))?;
        Ok(ticket)
    }
}
