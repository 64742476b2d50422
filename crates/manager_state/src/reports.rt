//! Extents, and what their places have told.
ghost use Rattle.std.specs.Prelude.{◌≡◌};
ghost use Rattle.model_streams.specs.Actors.{is_node};
ghost use Rattle.model_streams.specs.Manager.{place_of, with_report, frozen_to, known_sealed, first_sealed, lesser_of, least_told};

use block_types::Nodes;
use model_streams::Extent;
use wire::ActorId;

fn is_node(node: u8, actor: &ActorId) -> bool
    ensures { result ≡ is_node node actor.now }
{
    match actor {
        ActorId::Node(number) => *number == node,
        ActorId::Manager => false,
        ActorId::Map => false,
        ActorId::Server(_) => false,
        ActorId::User(_) => false,
    }
}

/// The place of an extent that an actor is, if it is one.
pub fn place_of(places: &Nodes, actor: &ActorId) -> Option<u8>
    ensures { result ≡ place_of places.now actor.now }
{
    if is_node(places.primary, actor) {
        Some(places.primary)
    } else if is_node(places.second, actor) {
        Some(places.second)
    } else if is_node(places.third, actor) {
        Some(places.third)
    } else {
        None
    }
}

/// With the length in bytes that a place tells; none where the sender is no place.
pub fn with_frozen(entry: &Extent, from: &ActorId, length: u32) -> Option<Extent>
    ensures { result ≡ with_report entry.now from.now (frozen_to length) }
{
    let mut entry = *entry;
    if is_node(entry.places.primary, from) {
        entry.primary.frozen = Some(length);
        Some(entry)
    } else if is_node(entry.places.second, from) {
        entry.second.frozen = Some(length);
        Some(entry)
    } else if is_node(entry.places.third, from) {
        entry.third.frozen = Some(length);
        Some(entry)
    } else {
        None
    }
}

/// With a place whose replica is sealed; none where the sender is no place.
pub fn with_sealed(entry: &Extent, from: &ActorId) -> Option<Extent>
    ensures { result ≡ with_report entry.now from.now known_sealed }
{
    let mut entry = *entry;
    if is_node(entry.places.primary, from) {
        entry.primary.sealed = true;
        Some(entry)
    } else if is_node(entry.places.second, from) {
        entry.second.sealed = true;
        Some(entry)
    } else if is_node(entry.places.third, from) {
        entry.third.sealed = true;
        Some(entry)
    } else {
        None
    }
}

/// The first place that is known to be sealed.
pub fn first_sealed(entry: &Extent) -> Option<u8>
    ensures { result ≡ first_sealed entry.now }
{
    if entry.primary.sealed {
        Some(entry.places.primary)
    } else if entry.second.sealed {
        Some(entry.places.second)
    } else if entry.third.sealed {
        Some(entry.places.third)
    } else {
        None
    }
}

fn lesser(one: Option<u32>, other: Option<u32>) -> Option<u32>
    ensures { result ≡ lesser_of one other }
{
    match (one, other) {
        (None, other) => other,
        (one, None) => one,
        (Some(one), Some(other)) => Some(one.min(other)),
    }
}

/// The least length that a place has told, in bytes, if one has.
pub fn least_told(entry: &Extent) -> Option<u32>
    ensures { result ≡ least_told entry.now }
{
    let rest = lesser(entry.second.frozen, entry.third.frozen);
    lesser(entry.primary.frozen, rest)
}
