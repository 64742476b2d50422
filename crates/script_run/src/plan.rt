//! A whole script, read before its first event runs.
ghost use Rattle.std.specs.Prelude.{◌≡◌, ◌++◌, ◌∷◌, [], IfErr, IfNone, IfOk, IfSome, List, false, map, true, ℕ};
ghost use Rattle.std.specs.Str.Lines.{lines};
ghost use Rattle.script_run.specs.Failures.{IsTextFailure};
ghost use Rattle.script_lines.specs.Grammar.{Spells};
ghost use Rattle.script_run.specs.Script.{BeginsScript, IsDraft, IsFirstBad, IsScript, IsWithin, Size, SpellsLine, SpellsSetup, size_if, size_of, words_of};

use crate::error::Failure;
use script_lines::{Line, lines_of};
use std::alloc::{AllocError, Global};
use std::str;
use world::Setup;

/// A setup, and the lines below it in order.
#[derive(Drop)]
pub struct Plan {
    pub setup: Setup,
    pub lines: Vec<Line>,
}

/// The setup that these words spell.
fn setup_of(words: &[&str]) -> Option<Setup>
    ensures found { IfSome result (λ setup. SpellsSetup (map (λ word. word.now) words.now) (size_of setup)) }
    ensures none { IfNone result ((size : Size) → SpellsSetup (map (λ word. word.now) words.now) size → ⊥) }
{
    let ["setup", nodes, servers, target, batch] = words else {
        return None;
    };
    Setup::new(
        script_lines::number(nodes)?,
        script_lines::number(servers)?,
        script_lines::number(target)?,
        script_lines::number(batch)?,
    )
}

/// The setup that this line spells, if it is one. An error is out of memory (22).
fn read_setup(alloc: Global, line: &str) -> Result<Option<Setup>, AllocError>
    ensures found { IfOk result (λ read. IfSome read (λ setup. SpellsSetup (words_of line.now) (size_of setup))) }
    ensures none { IfOk result (λ read. IfNone read ((size : Size) → SpellsSetup (words_of line.now) size → ⊥)) }
{
    let words = script_lines::words(alloc, line)?;
    Ok(setup_of(words.as_slice()))
}

/// Whether the line shows no node outside the setup.
fn is_within(line: &Line, setup: &Setup) -> bool
    ensures yes { result ≡ true → IsWithin (size_of setup.now) line.now }
    ensures no { result ≡ false → IsWithin (size_of setup.now) line.now → ⊥ }
{
    match line {
        Line::Show { node, extent: _ } => (1..=setup.nodes).contains(node),
        _ => true,
    }
}

/// The line that this text spells, if it is one. Its words are in `words` after. An error is out of memory (22).
fn parsed<'a>(
    alloc: Global,
    line: &'a str,
    words: &mut Vec<&'a str>,
) -> Result<Option<Line>, AllocError>
    ensures found { IfOk result (λ read. IfSome read (λ found. Spells found (words_of line.now))) }
    ensures none { IfOk result (λ read. IfNone read ((found : Line) → Spells found (words_of line.now) → ⊥)) }
{
    match script_lines::words_into(line, words) {
        Ok(()) => script_lines::parse(alloc, words.as_slice()),
        Err(refused) => Err(refused),
    }
}

/// The line below a setup that this text spells, if it is one. An error is out of memory (22).
fn read_line<'a>(
    alloc: Global,
    text: &'a str,
    setup: &Setup,
    words: &mut Vec<&'a str>,
) -> Result<Option<Line>, AllocError>
    ensures found { IfOk result (λ read. IfSome read (λ line. SpellsLine (size_of setup.now) text.now line)) }
    ensures none { IfOk result (λ read. IfNone read ((line : Line) → SpellsLine (size_of setup.now) text.now line → ⊥)) }
{
    match parsed(alloc, text, words) {
        Ok(Some(line)) if is_within(&line, setup) => Ok(Some(line)),
        Ok(_) => Ok(None),
        Err(refused) => Err(refused),
    }
}

/// Reads the next line, the setup or one below it, and answers whether a script may go on so. Empty lines are passed over.
/// An error is out of memory (22).
fn read_next<'a>(
    alloc: Global,
    line: &'a [u8],
    setup: &mut Option<Setup>,
    plan: &mut Vec<Line>,
    words: &mut Vec<&'a str>,
) -> Result<bool, AllocError>
    ensures read { IfOk result (λ read. read ≡ true → (before : List (List ℕ))
        → IsDraft before (size_if setup.old) plan.old.items → IsDraft (before ++ line.now ∷ []) (size_if setup.new) plan.new.items) }
    ensures none { IfOk result (λ read. read ≡ false → (before : List (List ℕ))
        → IsDraft before (size_if setup.old) plan.old.items → BeginsScript (before ++ line.now ∷ []) → ⊥) }
{
    let Ok(text) = str::from_utf8(line) else {
        return Ok(false);
    };
    if text.is_empty() {
        return Ok(true);
    }
    match *setup {
        None => match read_setup(alloc, text)? {
            Some(first) => {
                *setup = Some(first);
                Ok(true)
            }
            None => Ok(false),
        },
        Some(size) => match read_line(alloc, text, &size, words)? {
            Some(line) => {
                plan.push(line)?;
                Ok(true)
            }
            None => Ok(false),
        },
    }
}

/// Reads the text of a script. An error is out of memory (22), or that the text is no script (60), with the first line that
/// no script has there.
pub fn read_plan(alloc: Global, text: &[u8]) -> Result<Plan, Failure>
    ensures found { IfOk result (λ plan. IsScript text.now (size_of plan.setup) plan.lines.items) }
    ensures failed { IfErr result IsTextFailure }
    ensures told { IfErr result (λ e. (n : ℕ) → e ≡ Failure.BadScript n → IsFirstBad (lines text.now) n) }
{
    let texts = lines_of(alloc, text)?;
    let mut setup = None;
    let mut plan = Vec::with_capacity(alloc, texts.len())?;
    let mut words = Vec::new(alloc);
    for (index, line) in texts.iter().enumerate() {
        if !read_next(alloc, line, &mut setup, &mut plan, &mut words)? {
            return Err(Failure::BadScript(index + 1));
        }
    }
    match setup {
        Some(setup) => Ok(Plan { setup, lines: plan }),
        None => Err(Failure::BadScript(texts.len() + 1)),
    }
}
