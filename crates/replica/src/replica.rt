//! A replica in any state.
ghost use Rattle.std.specs.Prelude.{[], ◌∷◌, ◌≡◌, ◌≢◌, ◌⊎◌, ◌<◌, ◌+◌, ◌≤◌, ◌++◌, true, false, length, None, Some, IfOk, IfErr, IsOk, OnOk, OnErr, MatchResult};
ghost use Rattle.std.specs.List.{AllByRecursion};
ghost use Rattle.block_types.specs.Limits.{IsGroup, IsTarget};
ghost use Rattle.replica.specs.Groups.{text_length};
ghost use Rattle.replica.specs.Content.{appended, fenced, frozen, new_content, sealed_with};
ghost use Rattle.replica.specs.Put.{fill_fault, put_fault};
ghost use Rattle.replica.specs.Reading.{bytes_at, groups_from, groups_to};
ghost use Rattle.replica.specs.Replay.{cut_to, is_boundary, is_frozen, is_open, is_sealed, is_tail};
ghost use Rattle.replica.specs.Room.{HasRoom};
ghost use Rattle.replica.specs.State.{content_of, room_of};

use crate::fault::{FillFault, PastEnd, PutFault, Stale};
use crate::frozen::FrozenReplica;
use crate::kept::Kept;
use crate::open::OpenReplica;
use crate::phase::Phase;
use crate::sealed::SealedReplica;
use block_types::{Group, Groups, MIN_TARGET, Nodes};
use bytes::Bytes;
use std::alloc::{AllocError, Global};
use std::mem;

/// Takes the place of a replica while it goes from state to state.
const NOWHERE: Nodes = Nodes {
    primary: 1,
    second: 2,
    third: 3,
};

/// A replica in the state that it is in.
#[derive(Drop)]
pub enum Replica {
    Open(OpenReplica),
    Frozen(FrozenReplica),
    Sealed(SealedReplica),
}

impl Replica {
    /// A new replica: open and empty. The target is from 4,096 to 16,777,216 bytes; takes no memory.
    pub fn new(alloc: Global, places: Nodes, target: u32, fence: u64) -> Replica
        requires { IsTarget target }
        ensures { content_of result ≡ new_content places target fence }
    {
        Replica::Open(OpenReplica::new(alloc, places, target, fence))
    }

    /// What it keeps.
    fn kept(&self) -> &Kept
        ensures places { result.now.places ≡ (content_of self.now).places }
        ensures target { result.now.target ≡ (content_of self.now).target }
        ensures fence { result.now.fence ≡ (content_of self.now).fence }
        ensures groups { result.now.held.groups ≡ (content_of self.now).groups }
    {
        match self {
            Replica::Open(open) => open.kept(),
            Replica::Frozen(frozen) => frozen.kept(),
            Replica::Sealed(sealed) => sealed.kept(),
        }
    }

    /// How many payload bytes there are, at most 20,971,519. An open replica has fewer than 4,194,304 above its target.
    pub fn len(&self) -> u32
        ensures value { result ≡ text_length (content_of self.now).groups }
        ensures bound { result ≤ 20971519 }
        ensures while_open { is_open (content_of self.now).phase ≡ true → result < (content_of self.now).target + 4194304 }
        ensures target { IsTarget (content_of self.now).target }
    {
        match self {
            Replica::Open(open) => open.len(),
            Replica::Frozen(frozen) => frozen.len(),
            Replica::Sealed(sealed) => {
                // Asked for, so that the proof knows that it is not open.
                let _sealed = sealed.state();
                sealed.len()
            }
        }
    }

    /// The state that it is in.
    pub fn state(&self) -> Phase
        ensures { result ≡ (content_of self.now).phase }
    {
        match self {
            Replica::Open(open) => open.state(),
            Replica::Frozen(frozen) => frozen.state(),
            Replica::Sealed(sealed) => sealed.state(),
        }
    }

    /// The least generation that it listens to.
    pub fn fence(&self) -> u64
        ensures { result ≡ (content_of self.now).fence }
    {
        self.kept().fence
    }

    /// The length at which no more groups are taken, in bytes.
    pub fn target(&self) -> u32
        ensures { result ≡ (content_of self.now).target }
    {
        self.kept().target
    }

    /// The three places of its extent, the primary first.
    pub fn places(&self) -> Nodes
        ensures { result ≡ (content_of self.now).places }
    {
        self.kept().places
    }

    /// A copy of so many bytes from an offset on, as far as there are any. An error is out of memory (22).
    pub fn bytes(&self, alloc: Global, offset: u32, length: u32) -> Result<Bytes, AllocError>
        ensures { IfOk result (λ bytes. bytes ≡ bytes_at offset length (content_of self.now).groups) }
    {
        self.kept().held.bytes(alloc, offset, length)
    }

    /// Fills a slice with the bytes from an offset on. Where there are not so many it is refused (8), and the slice
    /// is as it was. Takes no memory.
    pub fn read_into(&self, offset: u32, out: &mut [u8]) -> Result<(), PastEnd>
        ensures ok { OnOk result (out.new ≡ bytes_at offset (length out.old) (content_of self.now).groups) }
        ensures refused { OnErr result (out.new ≡ out.old) }
        ensures fault { MatchResult result (λ _. offset + length out.old ≤ text_length (content_of self.now).groups)
            (λ _. text_length (content_of self.now).groups < offset + length out.old) }
    {
        self.kept().held.read_into(offset, out)
    }

    /// Whether a group ends at that length, or the first one begins. Takes no memory.
    pub fn is_boundary(&self, length: u32) -> bool
        ensures { result ≡ is_boundary (groups_to length (content_of self.now).groups) }
    {
        self.kept().held.is_boundary(length)
    }

    /// Whether groups bring it from its end to a length of at most 20,971,519 bytes, and so fill it where it is frozen:
    /// there are some, they begin at its end, and end there. Takes no memory.
    pub fn is_tail(&self, from: u32, length: u32, groups: &Groups) -> bool
        ensures value { result ≡ is_tail (content_of self.now) from length groups.now }
        ensures groups { result ≡ true → AllByRecursion IsGroup groups.now }
    {
        self.kept().fill_fault(from, length, groups).is_none()
    }

    /// The first groups, of `upto` bytes together; none where a group goes over that boundary, or where there are not so
    /// many bytes. A block that lies in one full buffer is shared, any other is copied. An error is out of memory (22).
    pub fn groups_to(&self, alloc: Global, upto: u32) -> Result<Option<Groups>, AllocError>
        ensures { IfOk result (λ groups. groups ≡ groups_to upto (content_of self.now).groups) }
    {
        self.kept().held.groups_to(alloc, upto)
    }

    /// The groups from `from` on; none where a group goes over that boundary, or where there are not so many bytes. A
    /// block that lies in one full buffer is shared, any other is copied. An error is out of memory (22).
    pub fn groups_from(&self, alloc: Global, from: u32) -> Result<Option<Groups>, AllocError>
        ensures { IfOk result (λ groups. groups ≡ groups_from from (content_of self.now).groups) }
    {
        self.kept().held.groups_from(alloc, from)
    }

    /// Makes room for these groups: for their bytes, their blocks and their ends. Where there is room for them it takes no
    /// memory. Out of memory (22) nothing has changed but room.
    pub fn reserve(&mut self, groups: &[Group]) -> Result<(), AllocError>
        ensures same { content_of self.new ≡ content_of self.old }
        ensures room { OnOk result (HasRoom (room_of self.new) groups.now) }
        ensures ready { HasRoom (room_of self.old) groups.now → IsOk result }
    {
        match self {
            Replica::Open(open) => open.reserve(groups),
            Replica::Frozen(frozen) => frozen.reserve(groups),
            Replica::Sealed(sealed) => sealed.reserve(groups),
        }
    }

    /// Hands the replica out, and leaves an empty one; takes no memory.
    fn take(&mut self, alloc: Global) -> Replica
        ensures { result ≡ self.old }
    {
        mem::replace(self, Replica::new(alloc, NOWHERE, MIN_TARGET, 0))
    }

    /// Hands an open replica out.
    fn into_open(self) -> OpenReplica
        requires { is_open (content_of self).phase ≡ true }
        ensures content { result.content ≡ content_of self }
        ensures room { result.room ≡ room_of self }
    {
        match self {
            Replica::Open(open) => open,
            Replica::Frozen(frozen) => {
                // Asked for, so that the proof knows that it is not open.
                let _frozen = frozen.state();
                unreachable!()
            }
            Replica::Sealed(sealed) => {
                // Asked for, so that the proof knows that it is not open.
                let _sealed = sealed.state();
                unreachable!()
            }
        }
    }

    /// Hands a frozen replica out.
    fn into_frozen(self) -> FrozenReplica
        requires { is_frozen (content_of self).phase ≡ true }
        ensures content { result.content ≡ content_of self }
        ensures room { result.room ≡ room_of self }
    {
        match self {
            Replica::Open(open) => {
                // Asked for, so that the proof knows that it is not frozen.
                let _open = open.state();
                unreachable!()
            }
            Replica::Frozen(frozen) => frozen,
            Replica::Sealed(sealed) => {
                // Asked for, so that the proof knows that it is not frozen.
                let _sealed = sealed.state();
                unreachable!()
            }
        }
    }

    /// Adds a group of a generation at an offset to an open replica, as [`OpenReplica::put`] does. The first reason
    /// refuses it: 3 (the generation is below the fence), 8 (another offset), 7 (the length has reached the target), 22. A
    /// refusal leaves the replica as it was. Where there is room for the group it takes no memory.
    pub fn put(&mut self, generation: u64, offset: u32, group: &Group) -> Result<(), PutFault>
        requires { is_open (content_of self.old).phase ≡ true }
        ensures ok { OnOk result (content_of self.new ≡ appended (content_of self.old) group.now) }
        ensures refused { OnErr result (content_of self.new ≡ content_of self.old) }
        ensures fault { MatchResult result (λ _. put_fault (content_of self.old) generation offset ≡ None)
            (λ e. (e ≡ PutFault.Memory) ⊎ (put_fault (content_of self.old) generation offset ≡ Some e)) }
        ensures room { HasRoom (room_of self.old) (group.now ∷ []) → IfErr result (λ e. e ≢ PutFault.Memory) }
    {
        match self {
            Replica::Open(open) => open.put_in_place(generation, offset, group),
            Replica::Frozen(frozen) => {
                // Asked for, so that the proof knows that it is not open.
                let _frozen = frozen.state();
                unreachable!()
            }
            Replica::Sealed(sealed) => {
                // Asked for, so that the proof knows that it is not open.
                let _sealed = sealed.state();
                unreachable!()
            }
        }
    }

    /// Raises the fence of an open replica to a generation, as [`OpenReplica::raise`] does. One below the fence is
    /// refused (3), which leaves the replica as it was. Takes no memory.
    pub fn raise(&mut self, generation: u64) -> Result<(), Stale>
        requires { is_open (content_of self.old).phase ≡ true }
        ensures ok { OnOk result (content_of self.new ≡ fenced (content_of self.old) generation) }
        ensures refused { OnErr result (content_of self.new ≡ content_of self.old) }
        ensures fault { MatchResult result (λ _. (content_of self.old).fence ≤ generation)
            (λ _. generation < (content_of self.old).fence) }
    {
        match self {
            Replica::Open(open) => open.raise_in_place(generation),
            Replica::Frozen(frozen) => {
                // Asked for, so that the proof knows that it is not open.
                let _frozen = frozen.state();
                unreachable!()
            }
            Replica::Sealed(sealed) => {
                // Asked for, so that the proof knows that it is not open.
                let _sealed = sealed.state();
                unreachable!()
            }
        }
    }

    /// Lets an open replica take no more groups; takes no memory.
    pub fn freeze(&mut self, alloc: Global)
        requires { is_open (content_of self.old).phase ≡ true }
        ensures { content_of self.new ≡ frozen (content_of self.old) }
    {
        *self = Replica::Frozen(self.take(alloc).into_open().freeze());
    }

    /// Keeps the groups up to a length at which one ends, for good, of a replica that is not sealed; takes no memory.
    pub fn seal(&mut self, alloc: Global, length: u32)
        requires not_sealed { is_sealed (content_of self.old).phase ≡ false }
        requires boundary { is_boundary (groups_to length (content_of self.old).groups) ≡ true }
        ensures { content_of self.new ≡ cut_to (content_of self.old) (groups_to length (content_of self.old).groups) }
    {
        *self = match self.take(alloc) {
            Replica::Open(open) => match open.seal(length) {
                Ok(sealed) => Replica::Sealed(sealed),
                Err((_fault, open)) => Replica::Open(open),
            },
            Replica::Frozen(frozen) => match frozen.seal(length) {
                Ok(sealed) => Replica::Sealed(sealed),
                Err((_fault, frozen)) => Replica::Frozen(frozen),
            },
            Replica::Sealed(sealed) => Replica::Sealed(sealed),
        };
    }

    /// Adds groups that bring a frozen replica from its end to a length, for good, as [`FrozenReplica::fill_tail`] does.
    /// The first reason refuses them: 8 (there are none), 8 (`from` is not its length), 7 (the length is above 20,971,519),
    /// 8 (they do not end at the length), 22. A refusal leaves the replica as it was. Where there is room for the groups it
    /// takes no memory.
    pub fn fill_tail(
        &mut self,
        alloc: Global,
        from: u32,
        end: u32,
        groups: Groups,
    ) -> Result<(), FillFault>
        requires { is_frozen (content_of self.old).phase ≡ true }
        ensures ok { OnOk result (content_of self.new ≡ sealed_with (content_of self.old) ((content_of self.old).groups ++ groups)) }
        ensures refused { OnErr result (content_of self.new ≡ content_of self.old) }
        ensures taken { MatchResult result (λ _. is_tail (content_of self.old) from end groups ≡ true)
            (λ e. (e ≡ FillFault.Memory) ⊎ (is_tail (content_of self.old) from end groups ≡ false)) }
        ensures fault { MatchResult result (λ _. fill_fault (content_of self.old) from end groups ≡ None)
            (λ e. (e ≡ FillFault.Memory) ⊎ (fill_fault (content_of self.old) from end groups ≡ Some e)) }
        ensures room { HasRoom (room_of self.old) groups → IfErr result (λ e. e ≢ FillFault.Memory) }
    {
        let frozen = self.take(alloc).into_frozen();
        match frozen.fill_tail(from, end, groups) {
            Ok(sealed) => {
                *self = Replica::Sealed(sealed);
                Ok(())
            }
            Err((fault, frozen, _groups)) => {
                *self = Replica::Frozen(frozen);
                Err(fault)
            }
        }
    }
}
