//! The lines of a script, in words.
ghost use Rattle.std.specs.Prelude.{◌∷◌, ◌<◌, ◌↔◌, ◌≡◌, codes, length, map, option_map, IfNone, IfOk, IfSome, IsTrue};
ghost use Rattle.std.specs.List.{All};
ghost use Rattle.script_lines.specs.Grammar.{HasForm, Spells};
ghost use Rattle.script_lines.specs.Sequences.{Reads};
ghost use Rattle.script_lines.specs.Verbs.{verb_word};
ghost use Rattle.script_lines.specs.declared.line.Line.{Line};
ghost use Rattle.script_lines.specs.declared.line.Line.TheVariants as lines;

use crate::boxed_event::BoxedEvent;
use crate::line::Line;
use crate::requesting::{nodes, request};
use crate::spelling::{key, number};
use crate::verb::{Verb, verb_of};
use crate::word::{actor, fate, manner, numbers, server};
use model_streams::Event;
use std::alloc::{AllocError, Global};
use wire::{ExtentId, RangeId};

/// Reads the words of a line, or answers `None` where they are none of a script.
pub fn parse(alloc: Global, words: &[&str]) -> Result<Option<Line>, AllocError>
    // What is read is spelled so.
    ensures found { IfOk result (λ read. IfSome read (λ line. Spells line (map (λ w. w.now) words.now))) }
    // And no line is spelled so where nothing is read.
    ensures none { IfOk result (λ read. IfNone read
        ((line : Line) → Spells line (map (λ w. w.now) words.now) → ⊥)) }
{
    if !all_filled(words) {
        return Ok(None);
    }
    let [first, rest @ ..] = words else {
        return Ok(None);
    };
    match verb_of(first) {
        Some(verb) => line_behind(alloc, verb, rest),
        None => Ok(None),
    }
}

/// Whether no word is empty, as between two blanks.
fn all_filled(words: &[&str]) -> bool
    ensures { IsTrue result ↔ All (λ w. 0 < length w.now) words.now }
{
    words.iter().all(|word| !word.is_empty())
}

/// Reads the words after this verb.
fn line_behind(alloc: Global, verb: Verb, words: &[&str]) -> Result<Option<Line>, AllocError>
    ensures { IfOk result (λ line. Reads HasForm line (verb_word verb ∷ map (λ w. w.now) words.now)) }
{
    match verb {
        Verb::User => submit(alloc, words),
        Verb::Deliver => Ok(deliver(words)),
        Verb::Settle => Ok(settle(words)),
        Verb::Cut => Ok(cut(words)),
        Verb::Heal => Ok(heal(words)),
        Verb::Show => Ok(show(words)),
        Verb::Stop => happens(alloc, stop(words)),
        Verb::Restart => happens(alloc, restart(words)),
        Verb::Decide => happens(alloc, decide(words)),
        Verb::GiveUp => happens(alloc, give_up(words)),
        Verb::Checkpoint => happens(alloc, checkpoint(words)),
        Verb::Split => split(alloc, words),
        Verb::Merge => happens(alloc, merge(words)),
        Verb::Assign => happens(alloc, assign(words)),
        Verb::Renew => happens(alloc, renew(words)),
        Verb::Moment => happens(alloc, moment(words)),
    }
}

fn submit(alloc: Global, words: &[&str]) -> Result<Option<Line>, AllocError>
    ensures { IfOk result (λ line. Reads HasForm line (codes "user" ∷ map (λ w. w.now) words.now)) }
{
    let [user, rest @ ..] = words else {
        return Ok(None);
    };
    let Some(user) = number(user) else {
        return Ok(None);
    };
    match request(alloc, rest)? {
        Some(request) => Ok(Some(Line::Submit { user, request })),
        None => Ok(None),
    }
}

fn deliver(words: &[&str]) -> Option<Line>
    ensures { Reads HasForm result (codes "deliver" ∷ map (λ w. w.now) words.now) }
{
    let [word] = words else {
        return None;
    };
    if *word == "last" {
        return Some(Line::DeliverLast);
    }
    Some(Line::Deliver(number(word)?))
}

fn settle(words: &[&str]) -> Option<Line>
    ensures { Reads HasForm result (codes "settle" ∷ map (λ w. w.now) words.now) }
{
    if words.is_empty() {
        Some(Line::Settle)
    } else {
        None
    }
}

fn cut(words: &[&str]) -> Option<Line>
    ensures { Reads HasForm result (codes "cut" ∷ map (λ w. w.now) words.now) }
{
    let [word] = words else {
        return None;
    };
    Some(Line::Cut(actor(word)?))
}

fn heal(words: &[&str]) -> Option<Line>
    ensures { Reads HasForm result (codes "heal" ∷ map (λ w. w.now) words.now) }
{
    let [word] = words else {
        return None;
    };
    Some(Line::Heal(actor(word)?))
}

/// A node above 255 is in no setup, so nothing shows it.
fn show(words: &[&str]) -> Option<Line>
    ensures { Reads HasForm result (codes "show" ∷ map (λ w. w.now) words.now) }
{
    let [node, extent] = numbers::<2>(words)?;
    if node > 255 {
        return None;
    }
    Some(Line::Show {
        node: node as u8,
        extent,
    })
}

/// The line of an event, if there is one. An error is out of memory (22).
fn happens(alloc: Global, event: Option<Event>) -> Result<Option<Line>, AllocError>
    ensures { IfOk result (λ line. line ≡ option_map lines.Happens event) }
{
    match event {
        Some(event) => Ok(Some(Line::Happens(BoxedEvent::new(alloc, event)?))),
        None => Ok(None),
    }
}

/// A stop: whose, in which device call, and whether the bytes of that call are kept.
fn stop(words: &[&str]) -> Option<Event>
    ensures { Reads HasForm (option_map lines.Happens result) (codes "stop" ∷ map (λ w. w.now) words.now) }
{
    let [name, call, bytes] = words else {
        return None;
    };
    Some(Event::Stop {
        actor: actor(name)?,
        call: number(call)?,
        keep: fate(bytes)?,
    })
}

fn restart(words: &[&str]) -> Option<Event>
    ensures { Reads HasForm (option_map lines.Happens result) (codes "restart" ∷ map (λ w. w.now) words.now) }
{
    let [name] = words else {
        return None;
    };
    Some(Event::Restart {
        actor: actor(name)?,
    })
}

fn decide(words: &[&str]) -> Option<Event>
    ensures { Reads HasForm (option_map lines.Happens result) (codes "decide" ∷ map (λ w. w.now) words.now) }
{
    let [extent] = numbers::<1>(words)?;
    Some(Event::Decide {
        extent: ExtentId(extent),
    })
}

fn give_up(words: &[&str]) -> Option<Event>
    ensures { Reads HasForm (option_map lines.Happens result) (codes "giveup" ∷ map (λ w. w.now) words.now) }
{
    let [by, range, primary, second, third] = numbers::<5>(words)?;
    Some(Event::GiveUp {
        server: server(by),
        range: RangeId(range),
        pick: nodes(primary, second, third),
    })
}

/// A checkpoint of a range at a server.
fn checkpoint(words: &[&str]) -> Option<Event>
    ensures { Reads HasForm (option_map lines.Happens result) (codes "checkpoint" ∷ map (λ w. w.now) words.now) }
{
    let [by, range, kind] = words else {
        return None;
    };
    Some(Event::Checkpoint {
        server: server(number(by)?),
        range: RangeId(number(range)?),
        combine: manner(kind)?,
    })
}

/// A split of a range at a server: the key at which the upper one begins.
fn split(alloc: Global, words: &[&str]) -> Result<Option<Line>, AllocError>
    ensures { IfOk result (λ line. Reads HasForm line (codes "split" ∷ map (λ w. w.now) words.now)) }
{
    let [by, range, name] = words else {
        return Ok(None);
    };
    let (Some(by), Some(range)) = (number(by), number(range)) else {
        return Ok(None);
    };
    let event = Event::Split {
        server: server(by),
        range: RangeId(range),
        key: key(alloc, name)?,
    };
    Ok(Some(Line::Happens(BoxedEvent::new(alloc, event)?)))
}

/// A merge of two ranges at a server: that of the lower keys comes first.
fn merge(words: &[&str]) -> Option<Event>
    ensures { Reads HasForm (option_map lines.Happens result) (codes "merge" ∷ map (λ w. w.now) words.now) }
{
    let [by, left, right] = numbers::<3>(words)?;
    Some(Event::Merge {
        server: server(by),
        left: RangeId(left),
        right: RangeId(right),
    })
}

fn assign(words: &[&str]) -> Option<Event>
    ensures { Reads HasForm (option_map lines.Happens result) (codes "assign" ∷ map (λ w. w.now) words.now) }
{
    let [range, to, until] = numbers::<3>(words)?;
    Some(Event::Assign {
        range: RangeId(range),
        server: server(to),
        until,
    })
}

fn renew(words: &[&str]) -> Option<Event>
    ensures { Reads HasForm (option_map lines.Happens result) (codes "renew" ∷ map (λ w. w.now) words.now) }
{
    let [range, of, until] = numbers::<3>(words)?;
    Some(Event::Renew {
        range: RangeId(range),
        server: server(of),
        until,
    })
}

fn moment(words: &[&str]) -> Option<Event>
    ensures { Reads HasForm (option_map lines.Happens result) (codes "moment" ∷ map (λ w. w.now) words.now) }
{
    let [now] = numbers::<1>(words)?;
    Some(Event::Moment { now })
}
