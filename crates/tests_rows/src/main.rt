//! Runs the rows of data/, each a script NAME with what it prints in NAME.stdout, and tells those that print something else. Beside
//! some stand their trace, NAME.trace, and their drawing, NAME.svg, which are compared too.
//!
//! The gate runs this program, and what it prints must be the file `stdout`: the number of all files that were compared, and none
//! that differs. `./run.sh --rows` runs the same scripts by `stampctl`, unproved, and looks at the status too. What the rows print was
//! worked out by hand from the rules; traces and drawings are what was printed once, and docs/CLAIMS.md says which were looked at.
//!
//! The program reads the files of the folder that it is run in, writes lines to the standard output, and touches nothing else.
#![tactic(auto)]

use script_drawing::{Part, draw};
use script_run::script;
use script_steps::trace;
use std::alloc::Global;
use std::fs;
use std::io::{self, Write};
use std::rt::Files;
use wire::Refusal;

/// What a file beside a script holds.
#[derive(Clone, Copy)]
enum Kind {
    /// What `stampctl run` prints.
    Output,
    /// What `stampctl trace` prints.
    Trace,
    /// What `stampctl draw` prints.
    Drawing,
}

/// Of a file's name, the name of the script that it is beside, and what it holds. The scripts themselves, and what they end with,
/// are none.
fn named(file: &str) -> Option<(&str, Kind)> {
    if let Some(name) = file.strip_suffix(".stdout") {
        return Some((name, Kind::Output));
    }
    if let Some(name) = file.strip_suffix(".trace") {
        return Some((name, Kind::Trace));
    }
    file.strip_suffix(".svg").map(|name| (name, Kind::Drawing))
}

/// All events of a script.
const WHOLE: Part = Part {
    from: 1,
    to: usize::MAX,
};

/// What `stampctl` prints of a script: where it is refused, that stands last.
fn output_of(alloc: Global, kind: Kind, text: &[u8]) -> io::Result<Vec<u8>> {
    let mut output = Vec::new(alloc);
    let ended = match kind {
        Kind::Output => script(alloc, text, &mut output),
        Kind::Trace => trace(alloc, text, &mut output),
        Kind::Drawing => draw(alloc, text, WHOLE, &mut output),
    };
    if let Err(failure) = ended {
        let refusal = failure.refusal().unwrap_or(Refusal::Memory);
        writeln!(output, "refused {refusal}")?;
    }
    Ok(output)
}

/// Whether the file holds something else than what is printed of the script that it is beside.
fn differs<R: AllocGlobal + Files>(rt: &R, file: &str, name: &str, kind: Kind) -> io::Result<bool> {
    let text = fs::read(rt, name)?;
    let output = output_of(rt.alloc(), kind, text.as_slice())?;
    let wanted = fs::read(rt, file)?;
    Ok(output.as_slice() != wanted.as_slice())
}

fn main(rt: HostRuntime) -> io::Result<()> {
    let mut files = 0u32;
    let mut differing = 0u32;
    for entry in fs::read_dir(&rt, ".")? {
        let entry = entry?;
        let file = entry.file_name();
        if let Some((name, kind)) = named(file) {
            files = files.saturating_add(1);
            if differs(&rt, file, name, kind)? {
                differing = differing.saturating_add(1);
                println!(rt; "{file} differs")?;
            }
        }
    }
    println!(rt; "{files} files, {differing} differ")
}
