//! All steps of a script.
ghost use Rattle.std.specs.Prelude.{◌≡◌, ◌⊎◌, IfErr, IfOk, List, OnOk, ℕ};
ghost use Rattle.std.specs.List.{AllByRecursion};
ghost use Rattle.std.specs.Str.Lines.{lines};
ghost use Rattle.script_lines.specs.declared.line.Line.{Line};
ghost use Rattle.script_run.specs.Failures.{IsRunFailure, IsTextFailure};
ghost use Rattle.script_run.specs.Script.{IsFirstBad, IsScript, Size, Writes};
ghost use Rattle.script_steps.specs.Steps.{Adds, IsWithin, Shows, StepsOfAll, all_packets, all_printed, post_of, seen};

use crate::step::Steps;
use script_lines::Line;
use script_run::{Failure, read_plan};
use std::alloc::Global;

/// Plays the lines in order.
fn play_all(steps: &mut Steps, lines: Vec<Line>) -> Result<(), Failure>
    ensures added { OnOk result (Adds steps.old steps.new (λ more. StepsOfAll 0 lines.items steps.old.session more steps.new.session)) }
    ensures failed { IfErr result IsRunFailure }
{
    for (place, line) in lines.into_iter().enumerate() {
        steps.play(place, line)?;
    }
    Ok(())
}

/// Runs the script of this text, and keeps its steps. The whole text is read before the first event. An error is a text that is
/// no script (60), with the number of the first line at which it is none, or running out of memory (22).
pub fn steps_of(alloc: Global, text: &[u8]) -> Result<Steps, Failure>
    // The steps are those of the script's lines, in order: of each the place of its line, and what it does, sends and prints.
    ensures shown { IfOk result (λ x. Shows text.now x) }
    // What they print, joined, is what the script prints.
    ensures written { IfOk result (λ x. Writes text.now (all_printed (seen x))) }
    // What they send, joined, is all that was sent: each packet once, in order of the numbers.
    ensures sent { IfOk result (λ x. all_packets (seen x) ≡ post_of x.session) }
    // The numbers of each step are of packets that were sent.
    ensures within { IfOk result (λ x. AllByRecursion (IsWithin (post_of x.session)) x.steps) }
    // A text that is a script is not refused as one that is none, and the line told is the first that no script has there.
    ensures refused { IfErr result (λ e. (n : ℕ) → e ≡ Failure.BadScript n
        → (size : Size) (plan : List Line) → IsScript text.now size plan → ⊥) }
    ensures first { IfErr result (λ e. (n : ℕ) → e ≡ Failure.BadScript n → IsFirstBad (lines text.now) n) }
    ensures failed { IfErr result (λ e. IsTextFailure e ⊎ IsRunFailure e) }
{
    let plan = read_plan(alloc, text)?;
    let mut steps = Steps::start(alloc, &plan.setup)?;
    play_all(&mut steps, plan.lines)?;
    Ok(steps)
}
