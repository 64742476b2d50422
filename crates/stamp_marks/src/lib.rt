//! Marks: entries of a shared list, each with a value that is fixed once, later than the mark was booked.
//!
//! This crate touches memory only. A [`MarkList`] is a vector that threads share and that only grows (`boxcar`). [`MarkList::book`]
//! makes a mark in it, and that alone wants memory; [`MarkList::fix`] gives the mark its value, which stays for good, and answers
//! the [`Token`] that shows it. It offers one promise: two tokens of one index show one value. So two threads, which share no
//! fact, know that they speak of one value as soon as their indexes are equal ([`MarkList::is_same`]).
//!
//! The values that marks are for are lists which exist in proofs alone and have no bytes: a [`History`] of events, each with the
//! state that it left, and a [`Prefix`] of a list that goes on growing. However long they are, a token is a few words, and no list
//! is copied or compared. [`Marks`] has a list of each kind, and an [`Identity`] says in a type which lists are meant.
#![tactic(auto)]

mod booking;
mod history;
mod identity;
mod mark;
mod mark_list;
mod marks;
mod prefix;
mod token;

pub use booking::Booking;
pub use history::{History, with_event};
pub use identity::Identity;
pub use mark::{AnyValue, Mark};
pub use mark_list::MarkList;
pub use marks::Marks;
pub use prefix::{Prefix, prefix_of, whole_of};
pub use token::{Token, copy_of};

#[cfg(test)]
mod tests;
