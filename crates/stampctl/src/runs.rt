//! Runs of the stream layer: what is sent, decided and shown, and that each run is honest.
use crate::requests::{Ask, body_of};
use Actor::{Manager, Node};
use Ask::{Append, Create, Extend, Seal};
use Step::{
    Asks, Decides, Delivers, HasLength, HasObserved, HasSent, IsSettled, Puts, Restarts, Settles,
    Stops,
};
use disk::MemDisk;
use model_streams::Event;
use std::alloc::Global;
use wire::{ActorId, AppendBody, Body, ExtentId, Packet, Refusal};
use world::check;
use world_streams::{Setup, StreamLayer, WorldFault};

/// The manager, or the node of this number.
#[derive(Clone, Copy)]
pub(crate) enum Actor {
    Manager,
    Node(u8),
}

/// What happens in a run, or what is seen of it.
#[derive(Clone, Copy)]
pub(crate) enum Step {
    /// A user asks this actor.
    Asks(Actor, Ask),
    /// A user asks each of nodes 1, 2 and 3.
    AsksEach(Ask),
    /// The packet of this number comes.
    Delivers(usize),
    /// Each packet after the last one that came or was lost comes, but for what is sent to these nodes, which is lost.
    Settles(&'static [u8]),
    /// The manager is to seal this extent, and refuses it for this reason, if it does.
    Decides(u64, Option<Refusal>),
    /// The manager is to seal extent 1, and may refuse it.
    MayDecide,
    /// This actor stops: at once where the number is 0, else in the device call of that number from now, whose bytes are
    /// kept or not.
    Stops(Actor, u64, bool),
    Restarts(Actor),
    /// So many packets were sent.
    HasSent(usize),
    /// So many observations were made.
    HasObserved(usize),
    /// No packet was sent after the last one that came or was lost.
    IsSettled,
    /// The packet of this number puts a group at offset 0 of a replica of this node.
    Puts(usize, Actor),
    /// The length of the replica of extent 1 of this node, if it has one.
    HasLength(u8, Option<u32>),
    /// Nothing that was observed breaks the laws of honest runs.
    IsHonest,
}

/// What a case shows, and its parts.
type Case = (&'static str, &'static [&'static [Step]]);

/// Extent 1 is made on nodes 1, 2 and 3: packets 0 to 6 are sent, and all come but the two answers to the user.
pub(crate) const EXTENDS: &[Step] = &[
    Asks(Manager, Create),
    Delivers(0),
    Asks(Manager, Extend),
    Delivers(2),
    Delivers(3),
    Delivers(4),
    Delivers(5),
];

const PUTS_TO_THE_SECONDARIES: &[Step] = &[
    HasSent(7),
    Asks(Node(1), Append),
    Delivers(7),
    HasSent(10),
    Puts(8, Node(2)),
    Puts(9, Node(3)),
    HasLength(1, Some(3)),
    HasLength(2, Some(0)),
    HasObserved(0),
];

const DOES_NOT_FIT: &[Step] = &[
    Delivers(0),
    Asks(Node(4), Append),
    Asks(Node(0), Append),
    Delivers(0),
    Delivers(1),
    HasSent(2),
    HasObserved(0),
    HasLength(0, None),
    HasLength(4, None),
];

const MAKES_AT_THE_FIRST: &[Step] = &[
    Asks(Manager, Create),
    Asks(Manager, Extend),
    Delivers(0),
    Delivers(1),
    Delivers(3),
    HasSent(7),
    HasLength(1, Some(0)),
    HasLength(2, None),
];

const DECIDES_WHAT_IT_WAS_TOLD: &[Step] = &[
    Decides(1, Some(Refusal::NoReply)),
    Decides(2, Some(Refusal::NoSuchExtent)),
    Stops(Manager, 0, false),
    Decides(2, None),
    Restarts(Manager),
    Decides(2, Some(Refusal::NoSuchExtent)),
    HasObserved(0),
];

const SEALS: &[Step] = &[Asks(Manager, Seal), Settles(&[])];

const KEEPS_ITS_DECISION: &[Step] = &[
    Stops(Manager, 3, true),
    Decides(1, None),
    HasObserved(1),
    IsSettled,
];

const LOSES_ITS_DECISION: &[Step] = &[
    Stops(Manager, 3, false),
    Decides(1, None),
    HasObserved(0),
    IsSettled,
];

const CASES: &[Case] = &[
    (
        "an append is put to the secondaries",
        &[EXTENDS, PUTS_TO_THE_SECONDARIES],
    ),
    ("nothing comes of what does not fit", &[DOES_NOT_FIT]),
    ("an extent is made node by node", &[MAKES_AT_THE_FIRST]),
    (
        "the manager decides by what it was told",
        &[EXTENDS, DECIDES_WHAT_IT_WAS_TOLD],
    ),
    (
        "a decision is shown where its record stands",
        &[EXTENDS, SEALS, KEEPS_ITS_DECISION],
    ),
    (
        "a decision is not shown where its record does not stand",
        &[EXTENDS, SEALS, LOSES_ITS_DECISION],
    ),
];

/// The stream layer of three nodes.
#[derive(Drop)]
pub(crate) struct Run {
    pub(crate) stream_layer: StreamLayer,
    /// The number after that of the last packet that came or was lost.
    pub(crate) next: usize,
}

fn actor_of(actor: Actor) -> ActorId {
    match actor {
        Manager => ActorId::Manager,
        Node(number) => ActorId::Node(number),
    }
}

// These calls pass no contract on, so that what calls them is proved from what it reads alone.
pub(crate) fn started(alloc: Global) -> Option<Run> {
    match StreamLayer::start(alloc, &Setup::new(3, 1, 4096, 1)?) {
        Ok(stream_layer) => Some(Run {
            stream_layer,
            next: 0,
        }),
        Err(_fault) => None,
    }
}

// The event is handed over whole: a local that lives on is dropped at each exit, and each costs the proof.
fn happens(alloc: Global, run: &mut Run, event: Event) -> Result<Option<Refusal>, WorldFault> {
    let answer = run.stream_layer.step(alloc, &event);
    drop(event);
    answer
}

/// Whether an event happens, and is refused for this reason, if it is.
fn answers(alloc: Global, run: &mut Run, event: Event, wanted: Option<Refusal>) -> bool {
    match happens(alloc, run, event) {
        Ok(refusal) => refusal == wanted,
        Err(_fault) => false,
    }
}

fn asks(alloc: Global, run: &mut Run, actor: Actor, ask: Ask) -> bool {
    let to = actor_of(actor);
    match body_of(alloc, ask) {
        Ok(body) => answers(alloc, run, Event::Submit { user: 7, to, body }, None),
        Err(_full) => false,
    }
}

fn asks_each(alloc: Global, run: &mut Run, ask: Ask) -> bool {
    for number in 1..4 {
        if !asks(alloc, run, Node(number), ask) {
            return false;
        }
    }
    true
}

fn delivers(alloc: Global, run: &mut Run, number: usize) -> bool {
    run.next = number.saturating_add(1);
    answers(alloc, run, Event::Deliver { number }, None)
}

pub(crate) fn decides(alloc: Global, run: &mut Run, extent: u64, wanted: Option<Refusal>) -> bool {
    let extent = ExtentId(extent);
    answers(alloc, run, Event::Decide { extent }, wanted)
}

fn may_decide(alloc: Global, run: &mut Run) -> bool {
    let extent = ExtentId(1);
    match happens(alloc, run, Event::Decide { extent }) {
        Ok(_refusal) => true,
        Err(_fault) => false,
    }
}

fn stops(alloc: Global, run: &mut Run, actor: Actor, call: u64, keep: bool) -> bool {
    let actor = actor_of(actor);
    answers(alloc, run, Event::Stop { actor, call, keep }, None)
}

fn restarts(alloc: Global, run: &mut Run, actor: Actor) -> bool {
    let actor = actor_of(actor);
    answers(alloc, run, Event::Restart { actor }, None)
}

fn is_cut_off(to: ActorId, cut: &[u8]) -> bool {
    match to {
        ActorId::Node(number) => cut.contains(&number),
        _ => false,
    }
}

/// To whom the packet of this number goes, if it was sent.
fn addressee(run: &Run, number: usize) -> Option<ActorId> {
    match run.stream_layer.sent().get(number) {
        Some(packet) => Some(packet.to),
        None => None,
    }
}

/// Has each packet after the last one come, but for what is sent to these nodes: whether that comes to an end.
pub(crate) fn settles(alloc: Global, run: &mut Run, cut: &[u8]) -> bool {
    for number in run.next..1000 {
        match addressee(run, number) {
            None => {
                run.next = number;
                return true;
            }
            Some(to) => if !is_cut_off(to, cut) && !delivers(alloc, run, number) {
                return false;
            },
        }
    }
    false
}

/// Whether this is a put of offset 0 to this actor.
fn is_put(packet: &Packet, to: ActorId) -> bool {
    match &packet.body {
        Body::Append(AppendBody::Put { offset: 0, .. }) => packet.to == to,
        _ => false,
    }
}

fn puts(run: &Run, number: usize, to: ActorId) -> bool {
    match run.stream_layer.sent().get(number) {
        Some(packet) => is_put(packet, to),
        None => false,
    }
}

fn replica_length(node: &enode::Node<MemDisk>) -> Option<u32> {
    match node.replica(ExtentId(1)) {
        Some(replica) => Some(replica.len()),
        None => None,
    }
}

fn length(run: &Run, number: u8) -> Option<u32> {
    match run.stream_layer.node(number) {
        Some(node) => replica_length(node),
        None => None,
    }
}

pub(crate) fn takes(alloc: Global, run: &mut Run, step: Step) -> bool {
    match step {
        Step::Asks(actor, ask) => asks(alloc, run, actor, ask),
        Step::AsksEach(ask) => asks_each(alloc, run, ask),
        Step::Delivers(number) => delivers(alloc, run, number),
        Step::Settles(cut) => settles(alloc, run, cut),
        Step::Decides(extent, wanted) => decides(alloc, run, extent, wanted),
        Step::MayDecide => may_decide(alloc, run),
        Step::Stops(actor, call, keep) => stops(alloc, run, actor, call, keep),
        Step::Restarts(actor) => restarts(alloc, run, actor),
        Step::HasSent(count) => run.stream_layer.sent().len() == count,
        Step::HasObserved(count) => run.stream_layer.observations().len() == count,
        Step::IsSettled => run.stream_layer.sent().len() == run.next,
        Step::Puts(number, to) => puts(run, number, actor_of(to)),
        Step::HasLength(number, wanted) => length(run, number) == wanted,
        Step::IsHonest => check(run.stream_layer.observations()).is_none(),
    }
}

pub(crate) fn takes_part(alloc: Global, run: &mut Run, part: &[Step]) -> bool {
    for step in part {
        if !takes(alloc, run, *step) {
            return false;
        }
    }
    true
}

fn takes_all(alloc: Global, run: &mut Run, parts: &[&[Step]]) -> bool {
    for part in parts {
        if !takes_part(alloc, run, part) {
            return false;
        }
    }
    true
}

/// Whether the steps of a case, part after part, go as it says.
fn holds(alloc: Global, parts: &[&[Step]]) -> bool {
    match started(alloc) {
        Some(run) => {
            let mut run = run;
            takes_all(alloc, &mut run, parts)
        }
        None => false,
    }
}

#[test]
fn each_step_goes_as_it_should(rt: HostRuntime) {
    for (shows, parts) in CASES {
        assert!(rt; holds(rt.alloc(), parts), "{shows}");
    }
}
