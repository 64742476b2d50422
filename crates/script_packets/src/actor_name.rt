//! Actors by name.
use std::fmt;
use wire::ActorId;

/// An actor as scripts name it: `n1`, `m`, `p`, `s1`, and of a user `u1`.
#[derive(Clone, Copy)]
pub struct ActorName(pub ActorId);

impl fmt::Display for ActorName {
    fn fmt<W: fmt::Write>(&self, f: &mut fmt::Formatter<W>) -> fmt::Result {
        match self.0 {
            ActorId::Node(node) => write!(f, "n{node}"),
            ActorId::Manager => f.write_str("m"),
            ActorId::Map => f.write_str("p"),
            ActorId::Server(server) => write!(f, "s{}", server.0),
            ActorId::User(user) => write!(f, "u{user}"),
        }
    }
}
