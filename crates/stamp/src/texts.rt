//! Texts of sealed extents, on a shelf.
ghost use Rattle.std.specs.Prelude.{◌≡◌, IfNone, IfOk, IfSome, IsErrOf, None, true};
ghost use Rattle.replica.specs.Groups.{text};
ghost use Rattle.replica.specs.State.{content_of};
ghost use Rattle.shelf.specs.Place.{IsOn};
ghost use Rattle.world_actors.specs.Actors.{is_stopped};
ghost use Rattle.stamp.specs.Texts.{IsSealedText, sealed_text};

use crate::fault::StampFault;
use crate::gate::Gate;
use crate::stamp::{RunCell, Stamp};
use replica::{Phase, Replica};
use shelf::{Place, Shelf};
use stamp_marks::Identity;
use std::alloc::{AllocError, Global};
use std::sync::Wait;
use wire::{ActorId, ExtentId};
use world_actors::{RunActor, place_of};

/// The whole text of a replica. An error is out of memory (22).
fn text_of(alloc: Global, replica: &Replica) -> Result<Vec<u8>, AllocError>
    ensures { IfOk result (λ v. v.items ≡ text (content_of replica.now).groups) }
{
    let mut bytes = Vec::new(alloc);
    bytes.resize(replica.len() as usize, 0)?;
    let _whole = replica.read_into(0, bytes.as_mut_slice());
    Ok(bytes)
}

/// The sealed replica that an actor has of an extent; none where it is no node that runs, or has no sealed one.
fn sealed_replica(actor: &RunActor, extent: ExtentId) -> Option<&Replica>
    ensures some { IfSome result (λ r. IsSealedText actor.now extent (text (content_of r.now).groups)) }
    ensures none { IfNone result (sealed_text actor.now extent ≡ None) }
{
    let Some(node) = actor.node() else {
        return None;
    };
    let Some(replica) = node.replica(extent) else {
        return None;
    };
    match replica.state() {
        Phase::Sealed => Some(replica),
        Phase::Frozen => None,
        Phase::Open => None,
    }
}

/// Publishes the text of the sealed replica that the node of a cell has of an extent. 52 where the node has stopped, else 9 where it
/// has no sealed replica of the extent, as where the cell has no node, else 22 where there was no memory; then nothing was published.
pub fn publish_from<K: Identity, W: Wait + AllocGlobal>(
    cell: &RunCell<K>,
    rt: &W,
    shelf: &Shelf,
    extent: ExtentId,
) -> Result<Place, StampFault>
    ensures on { IfOk result (λ p. IsOn p shelf.now) }
    ensures text { IfOk result (λ p. IsSealedText cell.now.actor extent p.text) }
    ensures unsealed { IsErrOf result StampFault.NotSealed → sealed_text cell.now.actor extent ≡ None }
    ensures stopped { IsErrOf result StampFault.Stopped → is_stopped cell.now.actor ≡ true }
{
    if cell.actor().is_stopped() {
        return Err(StampFault::Stopped);
    }
    let Some(replica) = sealed_replica(cell.actor(), extent) else {
        return Err(StampFault::NotSealed);
    };
    let text = text_of(rt.alloc(), replica)?;
    match shelf.publish(rt, text) {
        Ok(place) => Ok(place),
        Err(_full) => Err(StampFault::Memory),
    }
}

impl<G: Gate + Drop, K: Identity> Stamp<G, K> {
    /// Publishes the text of the sealed replica that a node has of an extent, and answers its place on the shelf, where it stands for
    /// good. 52 where the node has stopped, else 9 where it has no sealed replica of the extent, as where there is no such node, else 22
    /// where there was no memory; then nothing was published.
    pub fn publish<W: Wait + AllocGlobal>(
        &self,
        rt: &W,
        extent: ExtentId,
        node: u8,
    ) -> Result<Place, StampFault>
        ensures { IfOk result (λ p. IsOn p self.now) }
    {
        let Some(number) = place_of(self.run.setup(), ActorId::Node(node)) else {
            return Err(StampFault::NotSealed);
        };
        let Some(lock) = self.cells.get(number) else {
            return Err(StampFault::NotSealed);
        };
        let cell = lock.lock(rt);
        publish_from(&cell, rt, &self.shelf, extent)
    }
}
