//! What a reader sees of a packet: its kind by name, who sends it to whom, and the fields that tell it apart.
//!
//! This crate touches memory only, and takes none. It offers the program above it each packet as one line, the parts of that line
//! alone, and the name of each actor as scripts spell it. Payloads are shown by their sizes, and a key by its bytes. docs/FORMATS.md
//! has the fields of each kind. That a packet is shown whatever it holds is proved; how it is spelled is tested.
#![tactic(auto)]

mod actor_name;
mod field;
mod fields;
mod kind;
mod lists;
mod packet_line;
mod sizes;

pub use actor_name::ActorName;
pub use fields::PacketFields;
pub use kind::kind_of;
pub use packet_line::PacketLine;
