//! How lines of output leave the program.
ghost use Rattle.std.specs.Prelude.{◌++◌, ◌∷◌, [], IfErr, OnOk, drop};
ghost use Rattle.std.specs.Io.KnownBytes.{Appends};
ghost use Rattle.script_reports.specs.Reports.{report_text};
ghost use Rattle.script_reports.specs.Telling.{observed};
ghost use Rattle.script_run.specs.Failures.{IsRunFailure};
ghost use Rattle.script_run.specs.Output.{line, lines_of_notes};

use crate::error::Failure;
use script_reports::{Report, ShortLine, report_note};
use std::alloc::Global;
use std::io::Write;
use wire::Note;

/// Prints a line, piece by piece.
fn print_pieces<W: Write>(report: &Report, writer: &mut W) -> Result<(), Failure>
    ensures printed { OnOk result (Appends (W.contents writer.old) (W.contents writer.new)
        (report_text report.now ++ 10 ∷ [])) }
    ensures failed { IfErr result IsRunFailure }
{
    writeln!(writer, "{report}").map_err(Failure::Output)
}

/// Prints a line. One of a kind that is printed often is put together in the short line, and goes out as one piece.
fn print<W: Write>(report: &Report, short: &mut ShortLine, writer: &mut W) -> Result<(), Failure>
    ensures printed { OnOk result (Appends (W.contents writer.old) (W.contents writer.new)
        (report_text report.now ++ 10 ∷ [])) }
    ensures failed { IfErr result IsRunFailure }
{
    if short.fill(report) {
        return writer.write_all(short.as_bytes()).map_err(Failure::Output);
    }
    print_pieces(report, writer)
}

/// Prints a line, if there is one.
pub fn print_some<W: Write>(
    report: &Option<Report>,
    short: &mut ShortLine,
    writer: &mut W,
) -> Result<(), Failure>
    ensures printed { OnOk result (Appends (W.contents writer.old) (W.contents writer.new) (line report.now)) }
    ensures failed { IfErr result IsRunFailure }
{
    match report {
        Some(report) => print(report, short, writer),
        None => Ok(()),
    }
}

/// Prints the line of an observation, if it has one.
fn print_note<W: Write>(
    alloc: Global,
    note: &Note,
    short: &mut ShortLine,
    writer: &mut W,
) -> Result<(), Failure>
    ensures printed { OnOk result (Appends (W.contents writer.old) (W.contents writer.new) (line (observed note.now))) }
    ensures failed { IfErr result IsRunFailure }
{
    let report = report_note(alloc, note)?;
    print_some(&report, short, writer)
}

/// Prints the lines of what was observed.
fn print_notes<W: Write>(
    alloc: Global,
    notes: &[Note],
    short: &mut ShortLine,
    writer: &mut W,
) -> Result<(), Failure>
    ensures printed { OnOk result (Appends (W.contents writer.old) (W.contents writer.new) (lines_of_notes notes.now)) }
    ensures failed { IfErr result IsRunFailure }
{
    for note in notes {
        print_note(alloc, note, short, writer)?;
    }
    Ok(())
}

/// Prints the lines of what was observed after so much.
pub fn print_since<W: Write>(
    alloc: Global,
    notes: &[Note],
    shown: usize,
    short: &mut ShortLine,
    writer: &mut W,
) -> Result<(), Failure>
    ensures printed { OnOk result (Appends (W.contents writer.old) (W.contents writer.new)
        (lines_of_notes (drop shown notes.now))) }
    ensures failed { IfErr result IsRunFailure }
{
    match notes.get(shown..) {
        Some(more) => print_notes(alloc, more, short, writer),
        None => Ok(()),
    }
}
