//! A record as one line.
use block_types::Record;
use std::fmt;

/// A record as it is told: its kind and the numbers of its fields, with no newline. Of a group and of a manager's or a map's bytes
/// only the size is told.
#[derive(Clone, Copy)]
pub struct RecordLine<'a>(pub &'a Record);

impl fmt::Display for RecordLine<'_> {
    ghost use Rattle.std.specs.Prelude.{Some};
    ghost use Rattle.record_dump.specs.Dump.{line_of};

    ghost output = { λ line. Some (line_of line.0.now) };

    fn fmt<W: fmt::Write>(&self, f: &mut fmt::Formatter<W>) -> fmt::Result {
        match self.0 {
            Record::Make {
                extent,
                fence,
                target,
                nodes,
            } => write!(
                f,
                "make {extent} {fence} {target} {} {} {}",
                nodes.primary, nodes.second, nodes.third
            ),
            Record::Append {
                extent,
                offset,
                group,
            } => write!(f, "append {extent} {offset} {}", group.size()),
            Record::Fence { extent, generation } => write!(f, "fence {extent} {generation}"),
            Record::Freeze { extent } => write!(f, "freeze {extent}"),
            Record::Seal { extent, length } => write!(f, "seal {extent} {length}"),
            Record::Fill {
                extent,
                from,
                length,
                groups: _,
            } => write!(f, "fill {extent} {from} {length}"),
            Record::Manage { text } => write!(f, "manage {}", text.len()),
        }
    }
}
