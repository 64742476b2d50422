//! The actors of a drawing, from left to right.
use crate::journey::delivered_by;
use script_steps::{Act, Step};
use std::alloc::{AllocError, Global};
use wire::{ActorId, Packet, ServerNo};

/// Where the life line of the first actor stands, in pixels from the left.
pub(crate) const FIRST_COLUMN: u64 = 340;

/// How far the life lines stand apart, in pixels.
const COLUMN_WIDTH: u64 = 108;

/// An actor, in the order from left to right.
#[derive(Clone, Copy, PartialEq, Eq, PartialOrd, Ord)]
pub(crate) enum Rank {
    User(u64),
    Server(u8),
    Map,
    Manager,
    Node(u8),
}

impl Rank {
    fn of(actor: ActorId) -> Rank {
        match actor {
            ActorId::User(user) => Rank::User(user),
            ActorId::Server(server) => Rank::Server(server.0),
            ActorId::Map => Rank::Map,
            ActorId::Manager => Rank::Manager,
            ActorId::Node(node) => Rank::Node(node),
        }
    }

    /// Whose rank it is.
    pub fn actor(self) -> ActorId {
        match self {
            Rank::User(user) => ActorId::User(user),
            Rank::Server(server) => ActorId::Server(ServerNo(server)),
            Rank::Map => ActorId::Map,
            Rank::Manager => ActorId::Manager,
            Rank::Node(node) => ActorId::Node(node),
        }
    }
}

/// Where the life line of an actor stands.
#[derive(Clone, Copy)]
pub(crate) struct Column {
    /// Its place among them, from 0.
    pub place: usize,
    /// How far it stands from the left, in pixels.
    pub x: u64,
}

/// The actors that have a life line, from left to right.
#[derive(Drop)]
pub(crate) struct Columns {
    ranks: Vec<Rank>,
}

/// How far from the left the life line at a place stands, in pixels.
pub(crate) fn x_of(place: usize) -> u64 {
    FIRST_COLUMN.saturating_add((place as u64).saturating_mul(COLUMN_WIDTH))
}

impl Columns {
    /// The actors that take part in these steps.
    pub fn new(alloc: Global, steps: &[Step], sent: &[Packet]) -> Result<Columns, AllocError> {
        let mut columns = Columns {
            ranks: Vec::new(alloc),
        };
        for step in steps {
            columns.add_step(step, sent)?;
        }
        Ok(columns)
    }

    fn add(&mut self, actor: ActorId) -> Result<(), AllocError> {
        let rank = Rank::of(actor);
        if let Err(place) = self.ranks.binary_search(&rank) {
            self.ranks.insert(place, rank)?;
        }
        Ok(())
    }

    /// Adds who sends or takes a packet in this step, or has it done, and whom it sends packets to.
    fn add_step(&mut self, step: &Step, sent: &[Packet]) -> Result<(), AllocError> {
        match step.act {
            Act::Submit { user } => self.add(ActorId::User(user))?,
            Act::Deliver { number: _ } => {
                if let Some(number) = delivered_by(step) {
                    self.add_ends_of(number, sent)?;
                }
            }
            Act::Stop { actor }
            | Act::Restart { actor }
            | Act::Cut { actor }
            | Act::Heal { actor }
            | Act::Order { actor } => self.add(actor)?,
            Act::Show { node } => self.add(ActorId::Node(node))?,
            Act::Deliveries | Act::Moment { now: _ } => {}
        }
        for packet in sent.get(step.first..step.end).unwrap_or(&[]) {
            self.add_ends(packet)?;
        }
        Ok(())
    }

    /// Adds the ends of the packet of a number, if there is one.
    fn add_ends_of(&mut self, number: usize, sent: &[Packet]) -> Result<(), AllocError> {
        match sent.get(number) {
            Some(packet) => self.add_ends(packet),
            None => Ok(()),
        }
    }

    fn add_ends(&mut self, packet: &Packet) -> Result<(), AllocError> {
        self.add(packet.from)?;
        self.add(packet.to)
    }

    /// The life line of an actor, if it has one.
    pub fn get(&self, actor: ActorId) -> Option<Column> {
        match self.ranks.binary_search(&Rank::of(actor)) {
            Ok(place) => Some(Column {
                place,
                x: x_of(place),
            }),
            Err(_place) => None,
        }
    }

    /// Whose life lines there are, from left to right.
    pub fn ranks(&self) -> &[Rank] {
        self.ranks.as_slice()
    }

    /// Where the last life line stands, in pixels from the left.
    pub fn right(&self) -> u64 {
        x_of(self.ranks.len().saturating_sub(1))
    }
}
