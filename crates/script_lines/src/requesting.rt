//! What users ask, in words.
ghost use Rattle.std.specs.Prelude.{◌≡◌, ◌∷◌, codes, map, min, IfOk};
ghost use Rattle.script_lines.specs.Grammar.{Asks};
ghost use Rattle.script_lines.specs.Sequences.{Reads};
ghost use Rattle.script_lines.specs.Verbs.{wish_word};

use crate::line::Request;
use crate::spelling::{key, number};
use crate::verb::{Wish, wish_of};
use crate::word::{blocks, changes, kind, last, node, numbers, place, server};
use block_types::Nodes;
use std::alloc::{AllocError, Global};

/// What a user asks by these words.
pub fn request(alloc: Global, words: &[&str]) -> Result<Option<Request>, AllocError>
    ensures { IfOk result (λ request. Reads Asks request (map (λ w. w.now) words.now)) }
{
    let [first, rest @ ..] = words else {
        return Ok(None);
    };
    match wish_of(first) {
        Some(wish) => request_behind(alloc, wish, rest),
        None => Ok(None),
    }
}

/// What a user asks by the words after this wish.
fn request_behind(alloc: Global, wish: Wish, words: &[&str]) -> Result<Option<Request>, AllocError>
    ensures { IfOk result (λ request. Reads Asks request (wish_word wish ∷ map (λ w. w.now) words.now)) }
{
    match wish {
        Wish::Create => Ok(create(words)),
        Wish::Extend => Ok(extend(words)),
        Wish::Append => append(alloc, words),
        Wish::Read => Ok(read(words)),
        Wish::Content => Ok(content(words)),
        Wish::Seal => Ok(seal(words)),
        Wish::Transact => transact(alloc, words),
        Wish::Get => get(alloc, words),
        Wish::Route => route(alloc, words),
    }
}

fn create(words: &[&str]) -> Option<Request>
    ensures { Reads Asks result (codes "create" ∷ map (λ w. w.now) words.now) }
{
    let [number] = numbers::<1>(words)?;
    Some(Request::Create {
        kind: kind(number)?,
    })
}

/// The three places of an extent, the primary first.
pub fn nodes(primary: u64, second: u64, third: u64) -> Nodes
    ensures { result ≡ record { primary = min primary 255; second = min second 255; third = min third 255 } }
{
    Nodes {
        primary: node(primary),
        second: node(second),
        third: node(third),
    }
}

fn extend(words: &[&str]) -> Option<Request>
    ensures { Reads Asks result (codes "extend" ∷ map (λ w. w.now) words.now) }
{
    let [first, behind, places @ ..] = words else {
        return None;
    };
    let (Some(kind), Some(last)) = (kind(number(first)?), last(behind)) else {
        return None;
    };
    let [primary, second, third] = numbers::<3>(places)?;
    Some(Request::Extend {
        kind,
        last,
        pick: nodes(primary, second, third),
    })
}

fn read(words: &[&str]) -> Option<Request>
    ensures { Reads Asks result (codes "read" ∷ map (λ w. w.now) words.now) }
{
    let [at, extent, offset, length] = numbers::<4>(words)?;
    Some(Request::Read {
        node: node(at),
        extent,
        offset: place(offset),
        length: place(length),
    })
}

fn content(words: &[&str]) -> Option<Request>
    ensures { Reads Asks result (codes "content" ∷ map (λ w. w.now) words.now) }
{
    let [at, extent, upto] = numbers::<3>(words)?;
    Some(Request::Content {
        node: node(at),
        extent,
        upto: place(upto),
    })
}

fn seal(words: &[&str]) -> Option<Request>
    ensures { Reads Asks result (codes "seal" ∷ map (λ w. w.now) words.now) }
{
    let [extent] = numbers::<1>(words)?;
    Some(Request::Seal { extent })
}

fn append(alloc: Global, words: &[&str]) -> Result<Option<Request>, AllocError>
    ensures { IfOk result (λ request. Reads Asks request (codes "append" ∷ map (λ w. w.now) words.now)) }
{
    let [at, extent, rest @ ..] = words else {
        return Ok(None);
    };
    let (Some(at), Some(extent)) = (number(at), number(extent)) else {
        return Ok(None);
    };
    match blocks(alloc, rest)? {
        Some(blocks) => Ok(Some(Request::Append {
            node: node(at),
            extent,
            blocks,
        })),
        None => Ok(None),
    }
}

fn transact(alloc: Global, words: &[&str]) -> Result<Option<Request>, AllocError>
    ensures { IfOk result (λ request. Reads Asks request (codes "tx" ∷ map (λ w. w.now) words.now)) }
{
    let [to, range, rest @ ..] = words else {
        return Ok(None);
    };
    let (Some(to), Some(range)) = (number(to), number(range)) else {
        return Ok(None);
    };
    match changes(alloc, rest)? {
        Some(changes) => Ok(Some(Request::Transact {
            server: server(to),
            range,
            changes,
        })),
        None => Ok(None),
    }
}

fn get(alloc: Global, words: &[&str]) -> Result<Option<Request>, AllocError>
    ensures { IfOk result (λ request. Reads Asks request (codes "get" ∷ map (λ w. w.now) words.now)) }
{
    let [to, range, name] = words else {
        return Ok(None);
    };
    let (Some(to), Some(range)) = (number(to), number(range)) else {
        return Ok(None);
    };
    Ok(Some(Request::Get {
        server: server(to),
        range,
        key: key(alloc, name)?,
    }))
}

fn route(alloc: Global, words: &[&str]) -> Result<Option<Request>, AllocError>
    ensures { IfOk result (λ request. Reads Asks request (codes "route" ∷ map (λ w. w.now) words.now)) }
{
    let [name] = words else {
        return Ok(None);
    };
    Ok(Some(Request::Route {
        key: key(alloc, name)?,
    }))
}
