//! A packet as one line.
use crate::actor_name::ActorName;
use crate::fields::PacketFields;
use crate::kind::kind_of;
use std::fmt;
use wire::Packet;

/// A packet and its number in a run, counted from 0: the number, `FROM -> TO`, the kind and the fields, with single blanks
/// between them and no newline.
#[derive(Clone, Copy)]
pub struct PacketLine<'a> {
    pub number: usize,
    pub packet: &'a Packet,
}

impl fmt::Display for PacketLine<'_> {
    fn fmt<W: fmt::Write>(&self, f: &mut fmt::Formatter<W>) -> fmt::Result {
        write!(
            f,
            "{} {} -> {} {} {}",
            self.number,
            ActorName(self.packet.from),
            ActorName(self.packet.to),
            kind_of(&self.packet.body),
            PacketFields(&self.packet.body)
        )
    }
}
