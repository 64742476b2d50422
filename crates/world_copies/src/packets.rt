//! The copy of a packet.
ghost use Rattle.std.specs.Prelude.{◌≡◌, IfOk};

use crate::bodies::body;
use std::alloc::{AllocError, Global};
use wire::Packet;

/// The same packet again, which shares its payload. An error is out of memory (22).
pub fn packet(alloc: Global, packet: &Packet) -> Result<Packet, AllocError>
    ensures { IfOk result (λ copy. copy ≡ packet.now) }
{
    Ok(Packet {
        from: packet.from,
        to: packet.to,
        body: body(alloc, &packet.body)?,
    })
}
