//! A field of a packet: a name and a value.
use crate::actor_name::ActorName;
use crate::lists::{Extents, StreamWord};
use block_types::Nodes;
use bytes::Bytes;
use std::fmt;
use wire::{ActorId, Refusal, ReqNo, ServerNo, StreamList, StreamName};

/// The value of a field.
#[derive(Clone, Copy)]
pub(crate) enum Value<'a> {
    Number(u64),
    /// A number, or that there is none.
    OrNone(Option<u64>),
    Flag(bool),
    Request(&'a ReqNo),
    Refusal(Refusal),
    Actor(ActorId),
    /// Which server holds a range, if one does.
    Holder(Option<ServerNo>),
    /// Nodes by number, the primary first.
    Places(&'a Nodes),
    Stream(&'a StreamName),
    Key(&'a Bytes),
    /// The base of a stream, and its extents.
    List(&'a StreamList),
}

/// A field: its name and its value.
pub(crate) type Field<'a> = (&'static str, Value<'a>);

fn write_request<W: fmt::Write>(f: &mut fmt::Formatter<W>, request: &ReqNo) -> fmt::Result {
    match request {
        ReqNo::Server {
            server,
            session,
            count,
        } => write!(f, "s{}.{session}.{count}", server.0),
        ReqNo::User { user, ticket } => write!(f, "u{user}.{ticket}"),
        ReqNo::NoRequest => f.write_str("none"),
    }
}

/// A key in two digits for each byte, and a dash for none.
fn write_key<W: fmt::Write>(f: &mut fmt::Formatter<W>, key: &[u8]) -> fmt::Result {
    if key.is_empty() {
        return f.write_str("-");
    }
    for byte in key {
        write!(f, "{byte:02x}")?;
    }
    Ok(())
}

impl fmt::Display for Value<'_> {
    fn fmt<W: fmt::Write>(&self, f: &mut fmt::Formatter<W>) -> fmt::Result {
        match self {
            Value::Number(number) => write!(f, "{number}"),
            Value::OrNone(Some(number)) => write!(f, "{number}"),
            Value::OrNone(None) => f.write_str("none"),
            Value::Flag(flag) => write!(f, "{flag}"),
            Value::Request(request) => write_request(f, request),
            Value::Refusal(refusal) => write!(f, "{refusal}"),
            Value::Actor(actor) => write!(f, "{}", ActorName(*actor)),
            Value::Holder(Some(server)) => write!(f, "{}", ActorName(ActorId::Server(*server))),
            Value::Holder(None) => f.write_str("none"),
            Value::Places(nodes) => write!(f, "{},{},{}", nodes.primary, nodes.second, nodes.third),
            Value::Stream(name) => write!(f, "{}", StreamWord(name)),
            Value::Key(key) => write_key(f, key.as_slice()),
            Value::List(list) => write!(f, "{}:{}", list.base, Extents(&list.extents)),
        }
    }
}

/// Writes fields, with single blanks between them.
pub(crate) fn write_fields<W: fmt::Write>(
    f: &mut fmt::Formatter<W>,
    fields: &[Field<'_>],
) -> fmt::Result {
    let mut blank = "";
    for (name, value) in fields {
        write!(f, "{blank}{name}={value}")?;
        blank = " ";
    }
    Ok(())
}
