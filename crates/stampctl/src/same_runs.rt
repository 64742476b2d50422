//! Whether two runs have sent and observed the same.
use script_packets::PacketLine;
use script_reports::{report_answer, report_note};
use std::alloc::Global;
use std::test::Fail;
use wire::{Note, Packet};
use world::Run;

/// All that is told of a packet: its line, and what is printed where it answers a user.
fn packet_text(alloc: Global, number: usize, packet: &Packet) -> Result<String, Fail> {
    let mut text = format!(in alloc; "{}", PacketLine { number, packet })?;
    if let Some(report) = report_answer(alloc, packet)? {
        write!(text, " {report}")?;
    }
    Ok(text)
}

fn note_text(alloc: Global, note: &Note) -> Result<String, Fail> {
    match report_note(alloc, note)? {
        Some(report) => Ok(format!(in alloc; "{report}")?),
        None => Ok(String::new(alloc)),
    }
}

fn are_same_packets(alloc: Global, ones: &[Packet], others: &[Packet]) -> Result<bool, Fail> {
    for (number, (one, other)) in ones.iter().zip(others).enumerate() {
        let text = packet_text(alloc, number, one)?;
        if text.as_str() != packet_text(alloc, number, other)?.as_str() {
            return Ok(false);
        }
    }
    Ok(ones.len() == others.len())
}

fn are_same_notes(alloc: Global, ones: &[Note], others: &[Note]) -> Result<bool, Fail> {
    for (one, other) in ones.iter().zip(others) {
        let text = note_text(alloc, one)?;
        if text.as_str() != note_text(alloc, other)?.as_str() {
            return Ok(false);
        }
    }
    Ok(ones.len() == others.len())
}

/// Whether both have sent the same packets and observed the same, as far as these are printed.
pub(crate) fn is_same_run(alloc: Global, one: &Run, other: &Run) -> Result<bool, Fail> {
    Ok(
        are_same_packets(alloc, one.sent(), other.sent())?
            && are_same_notes(alloc, one.observations(), other.observations())?,
    )
}
