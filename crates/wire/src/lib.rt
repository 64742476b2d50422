//! Packets as plain values: who sends them, whom they go to, and what they say.
//!
//! This crate touches memory only. It offers the layers above the identifiers, the bodies of all packets, the
//! observations and the refusals of the system as values that a clause sees as numbers, lists and variants. Packets
//! have no byte form. Payloads are shared buffers, so that a packet costs what its lists cost and no copy of a payload.
#![tactic(auto)]

mod actor;
mod blocks_list;
mod body;
mod extent_id;
mod fence;
mod note;
mod packet;
mod range_id;
mod refusal;
mod rows;
mod server_number;
mod streams;
mod transaction;

pub use actor::{ActorId, ReqNo};
pub use blocks_list::Blocks;
pub use body::{AppendBody, Body, CheckBody, MapBody, ReadBody, SealBody, StreamBody, TableBody};
pub use extent_id::ExtentId;
pub use fence::Fence;
pub use note::{Note, Notes};
pub use packet::{Packet, Packets, Step};
pub use range_id::RangeId;
pub use refusal::Refusal;
pub use rows::{Row, Rows};
pub use server_number::ServerNo;
pub use streams::{
    Modifies, Modify, OpenedStreams, Source, Sources, StreamExtent, StreamExtents, StreamKind,
    StreamList, StreamLists, StreamName,
};
pub use transaction::{Change, Changes};
