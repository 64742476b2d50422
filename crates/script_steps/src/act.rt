//! What a step does.
ghost use Rattle.std.specs.Prelude.{◌≡◌};
ghost use Rattle.script_steps.specs.Steps.{act_of, act_of_event};

use script_lines::Line;
use wire::ActorId;
use world::Event;

/// What a step does, and to whom.
#[derive(Clone, Copy)]
pub enum Act {
    /// A user sends a packet.
    Submit { user: u64 },
    /// The packet of this number is delivered, if there is one.
    Deliver { number: usize },
    /// A line that makes deliveries, `settle` or `deliver last`. Each of them is a step of its own after it.
    Deliveries,
    /// The actor stops, at once or in one of its next device calls.
    Stop { actor: ActorId },
    /// The actor comes back.
    Restart { actor: ActorId },
    /// From here on a settle passes over packets to the actor.
    Cut { actor: ActorId },
    /// And from here on it does not.
    Heal { actor: ActorId },
    /// The operator has an actor do something: the manager, the map or a server.
    Order { actor: ActorId },
    /// The clock of leases shows a moment.
    Moment { now: u64 },
    /// What a node has of an extent is shown.
    Show { node: u8 },
}

/// What an event does.
fn act_of_event(event: &Event) -> Act
    ensures { result ≡ act_of_event event.now }
{
    match event {
        Event::Submit {
            user,
            to: _,
            body: _,
        } => Act::Submit { user: *user },
        Event::Deliver { number } => Act::Deliver { number: *number },
        Event::Stop {
            actor,
            call: _,
            keep: _,
        } => Act::Stop { actor: *actor },
        Event::Restart { actor } => Act::Restart { actor: *actor },
        Event::Decide { extent: _ } => Act::Order {
            actor: ActorId::Manager,
        },
        Event::GiveUp { server, .. } => Act::Order {
            actor: ActorId::Server(*server),
        },
        Event::Checkpoint { server, .. } => Act::Order {
            actor: ActorId::Server(*server),
        },
        Event::Split { server, .. } => Act::Order {
            actor: ActorId::Server(*server),
        },
        Event::Merge { server, .. } => Act::Order {
            actor: ActorId::Server(*server),
        },
        Event::Assign { .. } => Act::Order {
            actor: ActorId::Map,
        },
        Event::Renew { .. } => Act::Order {
            actor: ActorId::Map,
        },
        Event::Moment { now } => Act::Moment { now: *now },
    }
}

/// What a line does.
pub(crate) fn act_of(line: &Line) -> Act
    ensures { result ≡ act_of line.now }
{
    match line {
        Line::Submit { user, request: _ } => Act::Submit { user: *user },
        Line::Deliver(number) => Act::Deliver {
            number: *number as usize,
        },
        Line::DeliverLast => Act::Deliveries,
        Line::Settle => Act::Deliveries,
        Line::Cut(actor) => Act::Cut { actor: *actor },
        Line::Heal(actor) => Act::Heal { actor: *actor },
        Line::Show { node, extent: _ } => Act::Show { node: *node },
        Line::Happens(event) => act_of_event(event.event()),
    }
}
