//! An event as an actor takes it.

use model_streams::Event;
use wire::Packet;

/// An event, with the packet that it delivers. All but a `Deliver` have none.
#[derive(Drop)]
pub struct ActorInput {
    pub event: Event,
    pub packet: Option<Packet>,
}
