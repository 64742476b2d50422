//! The tasks that run a script.
ghost use Rattle.std.specs.Prelude.{◌≡◌, [], ℕ, IfErr, IfOk, IfSome, List, OnOk};
ghost use Rattle.std.specs.Str.Lines.{lines};
ghost use Rattle.std.specs.Io.KnownBytes.{Keeps};
ghost use Rattle.script_run.specs.Failures.{IsInputFailure, IsRunFailure};
ghost use Rattle.script_run.specs.Output.{Prints};
ghost use Rattle.script_run.specs.Playing.{PlaysAll};
ghost use Rattle.script_run.specs.Script.{IsFirstBad, IsScript, Size, Writes};

use crate::error::Failure;
use crate::plan::read_plan;
use crate::session::Session;
use script_lines::Line;
use std::alloc::Global;
use std::io::{Read, Write};

/// The whole text of a reader. An error is out of memory (22), or that the reader failed (62).
fn read_text<R: Read + Drop>(alloc: Global, mut reader: R) -> Result<Vec<u8>, Failure>
    ensures text { IfOk result (λ text. IfSome (R.remaining reader) (λ bytes. text.items ≡ bytes)) }
    ensures failed { IfErr result IsInputFailure }
{
    let mut text = Vec::new(alloc);
    match reader.read_to_end(&mut text) {
        Ok(_count) => Ok(text),
        Err(error) => Err(Failure::of_input(error)),
    }
}

/// Runs the lines in order.
fn play_all<W: Write>(
    session: &mut Session,
    lines: Vec<Line>,
    writer: &mut W,
) -> Result<(), Failure>
    ensures played { OnOk result (Prints (W.contents writer.old) (W.contents writer.new)
        (λ text. PlaysAll session.old lines.items text session.new)) }
    ensures failed { IfErr result IsRunFailure }
{
    for line in lines {
        session.play(line, writer)?;
    }
    Ok(())
}

/// Runs the script of this text, and prints what is observed and answered. The whole text is read before the first event, and
/// is then let go. An error is a text that is no script (60), with the number of the first line at which it is none; such a text
/// stays. Or it is running out of memory (22), or a writer that fails.
pub fn run_text<W: Write>(alloc: Global, text: &mut Vec<u8>, writer: &mut W) -> Result<(), Failure>
    // What is written is what the script of the text prints: every line of it was read, and was run in order.
    ensures written { OnOk result
        (Prints (W.contents writer.old) (W.contents writer.new) (λ written. Writes text.old.items written)) }
    // What is refused for its text is refused before the first line is printed.
    ensures checked_first { IfErr result (λ e. (IsRunFailure e → ⊥)
        → Keeps (W.contents writer.old) (W.contents writer.new)) }
    // A text that is a script is not refused as one that is none.
    ensures refused { IfErr result (λ e. (n : ℕ) → e ≡ Failure.BadScript n
        → (size : Size) (plan : List Line) → IsScript text.old.items size plan → ⊥) }
    // And the line told is the first that no script has there: one may begin with the lines before it, and not with it too.
    ensures first { IfErr result (λ e. (n : ℕ) → e ≡ Failure.BadScript n → IsFirstBad (lines text.old.items) n) }
    // A text that is no script is still there, so that its line can be shown, and one that has run is not.
    ensures kept { IfErr result (λ e. (n : ℕ) → e ≡ Failure.BadScript n → text.new.items ≡ text.old.items) }
    ensures gone { OnOk result (text.new.items ≡ []) }
{
    let plan = read_plan(alloc, text.as_slice())?;
    *text = Vec::new(alloc);
    let mut session = Session::start(alloc, &plan.setup)?;
    play_all(&mut session, plan.lines, writer)
}

/// Runs the script that the reader holds, and prints what is observed and answered. The whole text is read first. An error is
/// a text that is no script (60), with the number of the first line at which it is none, running out of memory (22), a reader that
/// fails (62), or a writer that fails.
pub fn script<R: Read + Drop, W: Write>(
    alloc: Global,
    reader: R,
    writer: &mut W,
) -> Result<(), Failure>
    // What is written is what the script of the text prints: every line of it was read, and was run in order.
    ensures written { OnOk result (IfSome (R.remaining reader) (λ text.
        Prints (W.contents writer.old) (W.contents writer.new) (λ written. Writes text written))) }
    // What is refused for its text is refused before the first line is printed.
    ensures checked_first { IfErr result (λ e. (IsRunFailure e → ⊥)
        → Keeps (W.contents writer.old) (W.contents writer.new)) }
    // A text that is a script is not refused as one that is none.
    ensures refused { IfErr result (λ e. (n : ℕ) → e ≡ Failure.BadScript n → IfSome (R.remaining reader) (λ text.
        (size : Size) (plan : List Line) → IsScript text size plan → ⊥)) }
    // And the line told is the first that no script has there: one may begin with the lines before it, and not with it too.
    ensures first { IfErr result (λ e. (n : ℕ) → e ≡ Failure.BadScript n → IfSome (R.remaining reader) (λ text.
        IsFirstBad (lines text) n)) }
{
    let mut text = read_text(alloc, reader)?;
    run_text(alloc, &mut text, writer)
}
