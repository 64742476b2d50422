//! A node takes packets through the bound of the trace, and two actors step on two threads.
use block_types::Nodes;
use model_streams::Event;
use stamp_traces::{Actor, Takers, TraceFault};
use std::alloc::Global;
use std::process::Abort;
use std::sync::{Mutex, Wait};
use std::test::Fail;
use std::thread::{Threads, join};
use wire::{ActorId, Body, ExtentId, Fence, Packet, RangeId, Refusal, SealBody, ServerNo};
use world_actors::{ActorInput, RunActor, actor_of, count, first, place_of, takers_of};
use world_setup::Setup;
use world_steps::ActorStep;

/// The manager has node 1 make extent 1.
fn make() -> ActorInput {
    ActorInput {
        event: Event::Deliver { number: 3 },
        packet: Some(Packet {
            from: ActorId::Manager,
            to: ActorId::Node(1),
            body: Body::Seal(SealBody::Make {
                extent: ExtentId(1),
                fence: Fence(0),
                target: 4096,
                places: Nodes {
                    primary: 1,
                    second: 2,
                    third: 3,
                },
            }),
        }),
    }
}

/// The manager asks node 1 for its length of extent 1.
fn freeze() -> ActorInput {
    ActorInput {
        event: Event::Deliver { number: 4 },
        packet: Some(Packet {
            from: ActorId::Manager,
            to: ActorId::Node(1),
            body: Body::Seal(SealBody::Freeze {
                extent: ExtentId(1),
            }),
        }),
    }
}

fn told(event: Event) -> ActorInput {
    ActorInput {
        event,
        packet: None,
    }
}

fn setup() -> Result<Setup, Fail> {
    Ok(Setup::new(6, 2, 4096, 1).ok_or("a setup of 6 nodes and 2 servers")?)
}

/// The actor before any event.
fn new_actor(alloc: Global, setup: &Setup, actor: ActorId) -> Result<RunActor, Fail> {
    match place_of(setup, actor) {
        None => Err("an actor")?,
        Some(number) => Ok(first(alloc, setup, number)?),
    }
}

fn taken<A: Actor<ActorInput, ActorStep>>(
    actor: &mut A,
    alloc: Global,
    input: &ActorInput,
) -> Result<ActorStep, TraceFault> {
    actor.step(alloc, input)
}

#[test]
fn node_takes(rt: HostRuntime) -> Result<(), Fail> {
    let mut node = new_actor(rt.alloc(), &setup()?, ActorId::Node(1))?;
    let made = taken(&mut node, rt.alloc(), &make())?;
    assert_eq!(rt; made.packets.items.len(), 0);
    let frozen = taken(&mut node, rt.alloc(), &freeze())?;
    assert_eq!(rt; frozen.packets.items.len(), 1);
    let replica = node
        .node()
        .and_then(|node| node.replica(ExtentId(1)))
        .is_some();
    assert!(rt; replica);
    let stop = Event::Stop {
        actor: ActorId::Node(1),
        call: 0,
        keep: false,
    };
    taken(&mut node, rt.alloc(), &told(stop))?;
    assert!(rt; node.is_stopped());
    assert!(rt; node.node().is_none());
    Ok(())
}

#[test]
fn numbers(rt: HostRuntime) -> Result<(), Fail> {
    let setup = setup()?;
    assert_eq!(rt; count(&setup), 10);
    assert_eq!(rt; place_of(&setup, ActorId::Node(6)), Some(5));
    assert_eq!(rt; place_of(&setup, ActorId::Node(7)), None);
    assert_eq!(rt; place_of(&setup, ActorId::Server(ServerNo(2))), Some(9));
    assert!(rt; actor_of(&setup, 9) == ActorId::Server(ServerNo(2)));
    assert_eq!(rt; takers_of(&setup, &make()), Takers { first: 0, end: 1 });
    let moment = told(Event::Moment { now: 5 });
    assert_eq!(rt; takers_of(&setup, &moment), Takers { first: 7, end: 10 });
    let absent = told(Event::Restart {
        actor: ActorId::Node(12),
    });
    assert_eq!(rt; takers_of(&setup, &absent), Takers { first: 0, end: 0 });
    Ok(())
}

#[test]
fn refused(rt: HostRuntime) -> Result<(), Fail> {
    let mut manager = new_actor(rt.alloc(), &setup()?, ActorId::Manager)?;
    let decide = told(Event::Decide {
        extent: ExtentId(1),
    });
    let step = taken(&mut manager, rt.alloc(), &decide)?;
    assert!(rt; step.refusal == Some(Refusal::NoSuchExtent));
    Ok(())
}

/// The actor behind a lock takes an input.
fn take<W: Wait + AllocGlobal>(
    rt: &W,
    cell: &Mutex<RunActor>,
    input: &ActorInput,
) -> Result<usize, TraceFault> {
    let mut actor = cell.lock(rt);
    let step = actor.step(rt.alloc(), input)?;
    Ok(step.packets.items.len())
}

fn at_once<R: Threads + Wait + Abort + AllocGlobal + Sync>(rt: &R) -> Result<(), Fail> {
    let setup = setup()?;
    let node = Mutex::new(new_actor(rt.alloc(), &setup, ActorId::Node(1))?);
    let map = Mutex::new(new_actor(rt.alloc(), &setup, ActorId::Map)?);
    let assign = told(Event::Assign {
        range: RangeId(1),
        server: ServerNo(1),
        until: 10,
    });
    let make = make();
    let (made, assigned) = join(rt, || take(rt, &node, &make), || take(rt, &map, &assign));
    assert_eq!(rt; made?, 0);
    assert_eq!(rt; assigned?, 1);
    Ok(())
}

#[test]
fn two_threads(rt: HostRuntime) -> Result<(), Fail> {
    at_once(&rt)
}
