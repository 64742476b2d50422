//! The first answer to each request.
ghost use Rattle.std.specs.Prelude.{◌≡◌, ◌≢◌, Some, None, OnOk, OnErr};
ghost use Rattle.stamp_answers.specs.FirstAnswers.{kept_at};
ghost use Rattle.stamp_answers.specs.declared.key.AnswerKey.{AnswerKey};

use crate::key::AnswerKey;
use std::alloc::{AllocError, Global};
use std::collections::BTreeMap;
use std::marker::Model;

/// From requests to the numbers of the first packets that were delivered as their answers: how many packets were sent before
/// each. What a caller keeps under a key stays until it keeps another under it, so the caller keeps the first, and looks first.
pub struct FirstAnswers {
    numbers: BTreeMap<(u64, u64), usize>,
}

// Written out, so that a crate above that lets one go has no proof of what is in it.
impl Drop for FirstAnswers {
    fn drop(self) {
        let FirstAnswers { numbers: _ } = self;
    }
}

impl Model for FirstAnswers {
    ghost use Rattle.stamp_answers.specs.FirstAnswers.{Numbers};

    ghost Value = { Numbers };

    ghost view = { λ a. a.numbers.entries };
}

impl FirstAnswers {
    /// No request has an answer; takes no memory.
    pub fn new(alloc: Global) -> FirstAnswers
        ensures none { (k : AnswerKey) → kept_at result k ≡ None }
    {
        FirstAnswers {
            numbers: BTreeMap::new(alloc),
        }
    }

    /// The number of the packet that is kept for a request, if there is one; takes no memory. A request under a ticket that its
    /// user gave before has the first answer.
    pub fn number(&self, key: &AnswerKey) -> Option<usize>
        ensures { result ≡ kept_at self.now key.now }
    {
        self.numbers.get(&(key.user, key.ticket)).copied()
    }

    /// Keeps the number of a packet for a request, in the place of one that there was; other requests keep theirs. An error is
    /// out of memory (22), and nothing has changed.
    pub fn keep(&mut self, key: AnswerKey, number: usize) -> Result<(), AllocError>
        ensures here { OnOk result (kept_at self.new key ≡ Some number) }
        ensures elsewhere { OnOk result ((k : AnswerKey) → k ≢ key → kept_at self.new k ≡ kept_at self.old k) }
        ensures err { OnErr result (self.new ≡ self.old) }
    {
        self.numbers.insert((key.user, key.ticket), number)?;
        Ok(())
    }

    /// Lets the number that is kept for a request go, if there is one; other requests keep theirs. Takes no memory.
    pub fn remove(&mut self, key: &AnswerKey)
        ensures here { kept_at self.new key.now ≡ None }
        ensures elsewhere { (k : AnswerKey) → k ≢ key.now → kept_at self.new k ≡ kept_at self.old k }
    {
        self.numbers.remove(&(key.user, key.ticket));
    }
}
