//! What a task reads.
use std::alloc::Global;
use std::fs;
use std::io::{self, Read};
use std::rt::Files;

/// The whole text of the file, which is opened for reading alone, or of the standard input.
pub(crate) fn text_of<R: Files + Input>(
    rt: &R,
    alloc: Global,
    path: Option<&str>,
) -> Result<Vec<u8>, io::Error> {
    let mut text = Vec::new(alloc);
    match path {
        None => rt.reader().read_to_end(&mut text)?,
        Some(path) => fs::open(rt, path)?.read_to_end(&mut text)?,
    };
    Ok(text)
}
