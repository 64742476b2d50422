//! The steps of a script, as text.
ghost use Rattle.std.specs.Prelude.{◌≡◌, IfOk, List, drop, filter, map};
ghost use Rattle.std.specs.Str.Lines.{lines};
ghost use Rattle.script_lines.specs.declared.line.Line.{Line};
ghost use Rattle.script_run.specs.Script.{IsScript, Size, SpellsAll, is_some};

use crate::act::Act;
use crate::recording::steps_of;
use crate::step::{Step, Steps};
use script_lines::lines_of;
use script_packets::PacketLine;
use script_run::Failure;
use std::alloc::{AllocError, Global};
use std::io::{self, Write};

/// The lines of a script after its setup, without the empty ones: those that its steps are of, by their places. An error is out
/// of memory (22).
pub fn event_lines(alloc: Global, text: &[u8]) -> Result<Vec<&[u8]>, AllocError>
    ensures below { IfOk result (λ found. map (λ line. line.now) found.items ≡ drop 1 (filter is_some (lines text.now))) }
    // Where the text is a script, each spells the line at its place.
    ensures spelled { IfOk result (λ found. (size : Size) (plan : List Line) → IsScript text.now size plan
        → SpellsAll size (map (λ line. line.now) found.items) plan) }
{
    lines_of(alloc, text)?
        .into_iter()
        .filter(|line| !line.is_empty())
        .skip(1)
        .collect(alloc)
}

/// The line of an event, as a script spells it. A delivery has one of its own, whatever line made it.
fn write_event<W: Write>(step: &Step, lines: &[&[u8]], writer: &mut W) -> io::Result<()> {
    if let Act::Deliver { number } = step.act {
        return writeln!(writer, "> deliver {number}");
    }
    let line = lines.get(step.line).copied().unwrap_or(b"");
    writer.write_all(b"> ")?;
    writer.write_all(line)?;
    writer.write_all(b"\n")
}

/// One step: its event, the packets that it sent, and what `run` prints of it.
fn write_step<W: Write>(
    steps: &Steps,
    step: &Step,
    lines: &[&[u8]],
    writer: &mut W,
) -> io::Result<()> {
    write_event(step, lines, writer)?;
    for (place, packet) in steps.sent_by(step).iter().enumerate() {
        let number = step.first.saturating_add(place);
        writeln!(writer, "  {}", PacketLine { number, packet })?;
    }
    writer.write_all(step.printed.as_slice())
}

/// Runs the script of this text, and writes its trace: each event, the packets that it sent, and what `run` prints of it. An error is
/// a text that is no script (60), or running out of memory (22), and then nothing has been written, or that the writer failed.
pub fn trace<W: Write>(alloc: Global, text: &[u8], writer: &mut W) -> Result<(), Failure> {
    let steps = steps_of(alloc, text)?;
    let lines = event_lines(alloc, text)?;
    for step in steps.steps() {
        write_step(&steps, step, lines.as_slice(), writer).map_err(Failure::Output)?;
    }
    Ok(())
}
