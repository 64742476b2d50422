//! What the single words of a line spell.
ghost use Rattle.std.specs.Prelude.{◌≡◌, ◌∷◌, ◌<◌, ℕ, List, [], Some, map, min, length, IfNone, IfOk, IfSome};
ghost use Rattle.std.specs.List.{AllByRecursion};
ghost use Rattle.script_lines.specs.Copies.{bytes_of};
ghost use Rattle.script_lines.specs.Sequences.{Reads, each};
ghost use Rattle.script_lines.specs.Values.{IsNumber, IsValue};
ghost use Rattle.script_lines.specs.Words.{Denotes, DenotesUpTo, IsActor, IsChange, IsFate, IsManner, IsLast, kind_number};

use crate::copies::{Copies, joined, spelled_out};
use crate::spelling::{key, number, value};
use std::alloc::{AllocError, Global};
use wire::{ActorId, Blocks, Change, Changes, ServerNo, StreamKind};

/// The most bytes of a value that shares memory with its key, so that no key holds much more than itself.
const MOST_SHARED: usize = 4096;

/// The numbers of these words, if there are so many and each is one.
pub fn numbers<const N: usize>(words: &[&str]) -> Option<[u64; N]>
    ensures found { IfSome result (λ numbers. each Denotes numbers (map (λ w. w.now) words.now)) }
    ensures none { IfNone result (length words.now ≡ N
        → AllByRecursion IsNumber (map (λ w. w.now) words.now) → ⊥) }
{
    if words.len() != N {
        return None;
    }
    let mut numbers = [0; N];
    for i in 0..N {
        numbers[i] = number(words[i])?;
    }
    Some(numbers)
}

/// The node of this number. No stamp has a node 255, which stands for all greater numbers.
pub fn node(number: u64) -> u8
    ensures { result ≡ min number 255 }
{
    number.min(255) as u8
}

/// The server of this number. No stamp has a server 255, which stands for all greater numbers.
pub fn server(number: u64) -> ServerNo
    ensures { result ≡ min number 255 }
{
    ServerNo(node(number))
}

/// No extent has so many bytes, and all numbers above stand for one past every end.
pub fn place(number: u64) -> u32
    ensures { result ≡ min number 4294967295 }
{
    number.min(4_294_967_295) as u32
}

/// The kind of stream that has this number.
pub fn kind(number: u64) -> Option<StreamKind>
    ensures { Reads (λ kind n. kind_number kind ≡ n) result number }
{
    match number {
        0 => Some(StreamKind::Metadata),
        1 => Some(StreamKind::Log),
        2 => Some(StreamKind::RowData),
        3 => Some(StreamKind::BlobData),
        _ => None,
    }
}

/// The last extent of a stream, `none` where it has none.
pub fn last(word: &str) -> Option<Option<u64>>
    ensures { Reads IsLast result word.now }
{
    if word == "none" {
        return Some(None);
    }
    match number(word) {
        Some(extent) => Some(Some(extent)),
        None => None,
    }
}

/// Whether the bytes of a device call are kept.
pub fn fate(word: &str) -> Option<bool>
    ensures { Reads IsFate result word.now }
{
    match word {
        "keep" => Some(true),
        "drop" => Some(false),
        _ => None,
    }
}

/// Whether a checkpoint combines the indexes: `combine`, or `plain`.
pub fn manner(word: &str) -> Option<bool>
    ensures { Reads IsManner result word.now }
{
    match word {
        "combine" => Some(true),
        "plain" => Some(false),
        _ => None,
    }
}

/// An actor by its name: `n1` and on, `s1` and on, `m` the manager, `p` the map.
pub fn actor(word: &str) -> Option<ActorId>
    ensures { Reads IsActor result word.now }
{
    if word == "m" {
        return Some(ActorId::Manager);
    }
    if word == "p" {
        return Some(ActorId::Map);
    }
    if let Some(digits) = word.strip_prefix('n') {
        return Some(ActorId::Node(numbered(digits)?));
    }
    let digits = word.strip_prefix('s')?;
    Some(ActorId::Server(ServerNo(numbered(digits)?)))
}

/// Actors are numbered from 1, and 255 stands for all greater numbers, which no stamp has.
fn numbered(digits: &str) -> Option<u8>
    ensures { Reads (λ n word. DenotesUpTo 255 n word × (0 < n)) result digits.now }
{
    match number(digits)? {
        0 => None,
        number => Some(node(number)),
    }
}

/// A change: `+KEY=WORD` puts the value of the word under the key, and `-KEY` deletes the key.
pub fn change(alloc: Global, word: &str) -> Result<Option<Change>, AllocError>
    ensures { IfOk result (λ change. Reads IsChange change word.now) }
{
    if let Some(deleted) = word.strip_prefix('-') {
        return Ok(Some(Change {
            key: key(alloc, deleted)?,
            value: None,
        }));
    }
    let Some(put) = word.strip_prefix('+') else {
        return Ok(None);
    };
    let Some((name, word)) = put.split_once('=') else {
        return Ok(None);
    };
    match value(word) {
        Some(copies) => Ok(Some(put_of(alloc, name, copies)?)),
        None => Ok(None),
    }
}

/// A change that puts a value under a key. A short value shares memory with its key, and a long one has its own.
fn put_of(alloc: Global, name: &str, copies: Copies) -> Result<Change, AllocError>
    ensures { IfOk result (λ change. change ≡ record { key = name.now; value = Some (bytes_of copies.entry) }) }
{
    if copies.length()? > MOST_SHARED {
        return Ok(Change {
            key: key(alloc, name)?,
            value: Some(joined(alloc, &[copies])?),
        });
    }
    let text = Copies {
        count: 1,
        text: name,
    };
    let mut rest = joined(alloc, &[text, copies])?;
    let key = rest.split_to(name.len())?;
    Ok(Change {
        key,
        value: Some(rest),
    })
}

/// What each of these words stands for.
fn values<'a>(alloc: Global, words: &[&'a str]) -> Result<Option<Vec<Copies<'a>>>, AllocError>
    ensures found { IfOk result (λ values. IfSome values (λ list.
        each (λ copies text. IsValue text (bytes_of copies)) list.items (map (λ w. w.now) words.now))) }
    ensures none { IfOk result (λ values. IfNone values ((list : List (List ℕ))
        → each (λ bytes text. IsValue text bytes) list (map (λ w. w.now) words.now) → ⊥)) }
{
    let mut values = Vec::with_capacity(alloc, words.len())?;
    for word in words {
        match value(word) {
            Some(copies) => values.push(copies)?,
            None => return Ok(None),
        }
    }
    Ok(Some(values))
}

/// The blocks of these words, which share one piece of memory.
pub fn blocks(alloc: Global, words: &[&str]) -> Result<Option<Blocks>, AllocError>
    ensures { IfOk result (λ blocks. Reads
        (λ list texts. each (λ bytes text. IsValue text bytes) list texts) blocks (map (λ w. w.now) words.now)) }
{
    match words {
        [word] => one_block(alloc, word),
        _ => many_blocks(alloc, words),
    }
}

/// The block of a word that is alone, for which no list of values is made.
fn one_block(alloc: Global, word: &str) -> Result<Option<Blocks>, AllocError>
    ensures { IfOk result (λ blocks. Reads
        (λ list texts. each (λ bytes text. IsValue text bytes) list texts) blocks (word.now ∷ [])) }
{
    match value(word) {
        Some(copies) => Ok(Some(blocks_of(alloc, &[copies])?)),
        None => Ok(None),
    }
}

/// The blocks of any number of words.
fn many_blocks(alloc: Global, words: &[&str]) -> Result<Option<Blocks>, AllocError>
    ensures { IfOk result (λ blocks. Reads
        (λ list texts. each (λ bytes text. IsValue text bytes) list texts) blocks (map (λ w. w.now) words.now)) }
{
    match values(alloc, words)? {
        Some(values) => Ok(Some(blocks_of(alloc, values.as_slice())?)),
        None => Ok(None),
    }
}

/// The blocks that these parts come to.
fn blocks_of(alloc: Global, parts: &[Copies<'_>]) -> Result<Blocks, AllocError>
    ensures { IfOk result (λ blocks. blocks ≡ map bytes_of parts.now) }
{
    Blocks::of(spelled_out(alloc, parts)?)
}

/// The changes of these words.
pub fn changes(alloc: Global, words: &[&str]) -> Result<Option<Changes>, AllocError>
    ensures { IfOk result (λ changes. Reads
        (λ list texts. each IsChange list texts) changes (map (λ w. w.now) words.now)) }
{
    let mut changes = Vec::with_capacity(alloc, words.len())?;
    for word in words {
        match change(alloc, word)? {
            Some(change) => changes.push(change)?,
            None => return Ok(None),
        }
    }
    Ok(Some(Changes::of(changes)?))
}
