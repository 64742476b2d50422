//! What passes see of the trace.
ghost use Rattle.std.specs.Prelude.{◌≡◌, ◌≢◌, ◌<◌, true, [], ◌∷◌, ◌++◌, IfOk, IfErr, OnErr, OnOk, MatchBool, None, length};
ghost use Rattle.stamp_traces.specs.Journals.{PassDiffers, with_look};
ghost use Rattle.stamp_traces.specs.Passes.{PassLooks, PassStands};

use crate::actor::Actor;
use crate::entry::Entry;
use crate::fault::TraceFault;
use crate::journal::Journal;
use crate::pass::Pass;
use crate::places::is_token_at;
use stamp_marks::{Identity, Marks, whole_of};
use std::marker::PhantomData;
use std::sync::Wait;

impl<A: Actor<E, R>, E: Drop, R: Drop, K: Identity> Journal<A, E, R, K> {
    /// A pass that has seen nothing. 22 where there was no memory for one more.
    pub fn admit(&mut self) -> Result<Pass<E, R, K>, TraceFault>
        ensures pass { IfOk result (λ p. p ≡ record { number = length self.old.passes; seen = []; index = None }) }
        ensures ok { OnOk result (self.new ≡ record self.old { passes = self.old.passes ++ None ∷ [] }) }
        ensures err { OnErr result (self.new ≡ self.old) }
    {
        let number = self.passes.len();
        let Ok(()) = self.passes.push(None) else {
            return Err(TraceFault::Memory);
        };
        Ok(Pass {
            number,
            token: None,
            of: PhantomData,
        })
    }

    /// Whether the pass's token is the trace's; takes no memory.
    pub fn stands(&self, marks: &Marks<E, A, Entry<E, R>>, pass: &Pass<E, R, K>) -> bool
        requires named { marks.now.prefixes ≡ K.prefixes }
        ensures stands { MatchBool result (PassStands self.now.entries pass.now) (PassDiffers self.now pass.now) }
        ensures within { result ≡ true → pass.now.number < length self.now.passes }
    {
        is_token_at(
            &marks.prefixes,
            self.passes.as_slice(),
            pass.number,
            &pass.token,
        )
    }

    /// Shows the pass all entries. 52 where its token is not the trace's, else 22 where there was no memory for the mark.
    pub fn look<W: Wait>(
        &mut self,
        rt: &W,
        marks: &Marks<E, A, Entry<E, R>>,
        pass: &mut Pass<E, R, K>,
    ) -> Result<(), TraceFault>
        requires named { marks.now.prefixes ≡ K.prefixes }
        ensures looks { OnOk result (PassLooks pass.old pass.new) }
        ensures seen { OnOk result (pass.new.seen ≡ self.new.entries) }
        ensures ok { OnOk result (self.new ≡ with_look self.old pass.new) }
        ensures room { IfErr result (λ e. e ≢ TraceFault.Full) }
        ensures differ { IfErr result (λ e. e ≡ TraceFault.Stopped → PassDiffers self.old pass.old) }
        ensures err { OnErr result ((self.new ≡ self.old) × (pass.new ≡ pass.old)) }
    {
        if !self.stands(marks, pass) {
            return Err(TraceFault::Stopped);
        }
        let Ok(booking) = marks.prefixes.book(rt, &pass.number) else {
            return Err(TraceFault::Memory);
        };
        let prefix = whole_of(&self.entries);
        let Some(seen) = marks.prefixes.fix(booking, prefix) else {
            return Err(TraceFault::Spent);
        };
        self.passes[pass.number] = Some(seen.again());
        pass.token = Some(seen);
        Ok(())
    }
}
