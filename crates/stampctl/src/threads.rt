//! Each actor in a struct of its own, and that struct behind a lock; and whether it has stopped.
use std::sync::{Mutex, Wait};
use std::test::*;
use std::thread::{Threads, join};
use wire::ServerNo;
use world_manager::ManagerActor;
use world_map::MapActor;
use world_nodes::NodeActor;
use world_server::ServerActor;

#[derive(Drop)]
struct NodeCell {
    actor: NodeActor,
}

#[derive(Drop)]
struct ManagerCell {
    actor: ManagerActor,
}

#[derive(Drop)]
struct MapCell {
    actor: MapActor,
}

#[derive(Drop)]
struct ServerCell {
    actor: ServerActor,
}

fn sends<T: Send>(_value: &T) {}

fn syncs<T: Sync>(_value: &T) {}

#[test]
fn node(rt: HostRuntime) -> Result<(), Fail> {
    let mut actor = NodeActor::start(rt.alloc(), 1)?;
    assert!(rt; !actor.is_stopped());
    actor.stop(0, false);
    assert!(rt; actor.is_stopped());
    let cell = NodeCell { actor };
    sends(&cell);
    syncs(&cell);
    let lock = Mutex::new(cell);
    sends(&lock);
    syncs(&lock);
    Ok(())
}

#[test]
fn manager(rt: HostRuntime) -> Result<(), Fail> {
    let mut actor = ManagerActor::start(rt.alloc(), 3, 4096)?;
    assert!(rt; !actor.is_stopped());
    actor.stop(0, false);
    assert!(rt; actor.is_stopped());
    let cell = ManagerCell { actor };
    sends(&cell);
    syncs(&cell);
    let lock = Mutex::new(cell);
    sends(&lock);
    syncs(&lock);
    Ok(())
}

#[test]
fn map(rt: HostRuntime) -> Result<(), Fail> {
    let mut actor = MapActor::start(rt.alloc())?;
    assert!(rt; !actor.is_stopped());
    actor.stop(0, false);
    assert!(rt; actor.is_stopped());
    let cell = MapCell { actor };
    sends(&cell);
    syncs(&cell);
    let lock = Mutex::new(cell);
    sends(&lock);
    syncs(&lock);
    Ok(())
}

fn show_moment(rt: &impl Wait, server: &Mutex<ServerCell>, now: u64) {
    server.lock(rt).actor.moment(now);
}

fn show_moments<R: Threads + Wait + Sync>(rt: &R, server: &Mutex<ServerCell>) {
    join(
        rt,
        || show_moment(rt, server, 3),
        || show_moment(rt, server, 4),
    );
}

#[test]
fn server(rt: HostRuntime) -> Result<(), Fail> {
    let mut actor = ServerActor::start(rt.alloc(), ServerNo(1), 16);
    assert!(rt; !actor.is_stopped());
    actor.stop(0);
    assert!(rt; actor.is_stopped());
    actor.restart(rt.alloc());
    assert!(rt; !actor.is_stopped());
    let cell = ServerCell { actor };
    sends(&cell);
    syncs(&cell);
    let lock = Mutex::new(cell);
    sends(&lock);
    syncs(&lock);
    show_moments(&rt, &lock);
    Ok(())
}
