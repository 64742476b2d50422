//! Who sends the packets of the cases.
use wire::{ActorId, ServerNo};

/// One of each kind of actor: user 7, server 2, and a node of any number.
#[derive(Clone, Copy)]
pub enum Sender {
    Manager,
    Map,
    User,
    Server,
    Node(u8),
}

pub fn actor_of(sender: Sender) -> ActorId {
    match sender {
        Sender::Manager => ActorId::Manager,
        Sender::Map => ActorId::Map,
        Sender::User => ActorId::User(7),
        Sender::Server => ActorId::Server(ServerNo(2)),
        Sender::Node(number) => ActorId::Node(number),
    }
}
