//! A list of marks.
ghost use Rattle.std.specs.Prelude.{◌≡◌, ◌≢◌, IfOk, IfSome, MatchBool};
ghost use Rattle.boxcar.specs.Table.{Shows};
ghost use Rattle.stamp_marks.specs.Tokens.{value_of, index_of, IsOf};

use crate::booking::Booking;
use crate::mark::Mark;
use crate::token::Token;
use boxcar::slot::OnceSlot;
use boxcar::tag::Tag;
use boxcar::{Pushed, Vec as Shared};
use std::alloc::{AllocError, Global};
use std::marker::Model;
use std::snapshot::Snapshot;
use std::sync::Wait;

/// Marks of which none ever goes. Threads share it by a `&`.
#[derive(Drop)]
pub struct MarkList<D, V> {
    marks: Shared<Mark<D, V>>,
}

impl<D, V> Model for MarkList<D, V> {
    ghost use Rattle.boxcar.specs.Table.{Shelves, shelves_coded};

    ghost Value = { Shelves };

    ghost coded = { shelves_coded };

    ghost view = { λ l. l.marks };
}

impl<D, V> MarkList<D, V> {
    /// A list without marks. 22 where there was no memory for it.
    pub fn new(alloc: Global) -> Result<MarkList<D, V>, AllocError> {
        Ok(MarkList {
            marks: Shared::new(alloc)?,
        })
    }

    /// Makes a mark about a subject, which has no value yet. 22 where there was no memory for one more.
    pub fn book<W: Wait>(&self, rt: &W, subject: &D) -> Result<Booking<D, V>, AllocError>
        ensures { IfOk result (λ b. Shows self.now b × (b.value.subject.value ≡ subject.now)) }
    {
        let mark = Mark {
            subject: Snapshot::of(subject),
            slot: OnceSlot::new(&Tag::empty()),
        };
        match self.marks.push_shown(rt, mark) {
            Ok(mark) => Ok(Booking { mark }),
            Err(_) => Err(AllocError),
        }
    }

    /// Gives a mark its value, for good; takes no memory. None where it has one, which nothing makes happen: a booking is used up
    /// here, and nothing copies it.
    pub fn fix(&self, booking: Booking<D, V>, value: Snapshot<V>) -> Option<Token<D, V>>
        requires { Shows self.now booking }
        ensures { IfSome result (λ t. Shows self.now t.mark × (t.mark ≡ booking) × (t.value ≡ value.value)) }
    {
        let Booking { mark } = booking;
        match self.marks.value(&mark).slot.set_written(value) {
            Ok(written) => Some(Token { mark, written }),
            Err(_) => None,
        }
    }

    /// The value that a token shows; takes no memory.
    pub fn value<'a>(&'a self, token: &Token<D, V>) -> &'a Snapshot<V>
        requires { Shows self.now token.now.mark }
        ensures { result.now.value ≡ token.now.value }
    {
        self.marks.value(&token.mark).slot.value(&token.written)
    }

    /// Whether there is neither token, or both have one index. Then they show one value. Takes no memory.
    pub fn is_same(&self, a: &Option<Token<D, V>>, b: &Option<Token<D, V>>) -> bool
        requires a { IsOf a.now self.now }
        requires b { IsOf b.now self.now }
        ensures { MatchBool result (value_of a.now ≡ value_of b.now) (index_of a.now ≢ index_of b.now) }
    {
        match (a, b) {
            (None, None) => true,
            (Some(a), Some(b)) => {
                if a.mark.index() == b.mark.index() {
                    self.marks.agrees(&a.mark, &b.mark);
                    a.written.agrees(&b.written);
                    true
                } else {
                    false
                }
            }
            _ => false,
        }
    }

    /// Whether the token is of the mark that was booked at this place. Then both have one index, and are about one subject. Takes
    /// no memory.
    pub fn is_from(&self, token: &Token<D, V>, place: &Pushed<Mark<D, V>>) -> bool
        requires token { Shows self.now token.now.mark }
        requires place { Shows self.now place.now }
        ensures { MatchBool result ((token.now.mark.index ≡ place.now.index) × (token.now.mark.value.subject.value ≡ place.now.value.subject.value)) (token.now.mark.index ≢ place.now.index) }
    {
        if token.mark.index() == place.index() {
            self.marks.agrees(&token.mark, place);
            true
        } else {
            false
        }
    }
}
