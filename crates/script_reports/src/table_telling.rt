//! What observations of tables and of the map print.
ghost use Rattle.std.specs.Prelude.{◌≡◌, Some, IfOk};
ghost use Rattle.script_reports.specs.Reports.{shown_bytes};
ghost use Rattle.script_reports.specs.Telling.{map_observed, size_of as value_size, table_observed};
ghost use Rattle.script_reports.specs.declared.report.Report.TheVariants as reports;

use crate::hex_text::HexText;
use crate::report::Report;
use bytes::Bytes;
use std::alloc::{AllocError, Global};
use wire::{Fence, Note, RangeId};

/// The line of an observation of the map, if it has one.
fn report_map(alloc: Global, note: &Note) -> Result<Option<Report>, AllocError>
    ensures { IfOk result (λ report. report ≡ map_observed note.now) }
{
    match note {
        Note::Split {
            range,
            low,
            high,
            key,
        } => match HexText::of(alloc, key.as_slice()) {
            Ok(text) => Ok(Some(Report::Split {
                range: range.0,
                low: low.0,
                high: high.0,
                key: text,
            })),
            Err(refused) => Err(refused),
        },
        Note::Merged { left, right, range } => Ok(Some(Report::Merged {
            left: left.0,
            right: right.0,
            range: range.0,
        })),
        _ => Ok(None),
    }
}

/// How many bytes a value has, if there is one.
fn length_of(value: &Option<Bytes>) -> Option<u64>
    ensures { result ≡ value_size value.now }
{
    match value {
        None => None,
        Some(bytes) => Some(bytes.len() as u64),
    }
}

/// The line of an answered Get.
fn report_get(
    alloc: Global,
    range: RangeId,
    generation: Fence,
    key: &Bytes,
    value: &Option<Bytes>,
) -> Result<Option<Report>, AllocError>
    ensures { IfOk result (λ report. report ≡ Some (reports.Got range generation (shown_bytes key.now) (value_size value.now))) }
{
    match HexText::of(alloc, key.as_slice()) {
        Ok(text) => Ok(Some(Report::Got {
            range: range.0,
            generation: generation.0,
            key: text,
            length: length_of(value),
        })),
        Err(refused) => Err(refused),
    }
}

/// The line of an observation of a table, or of the map, if it has one.
pub(crate) fn report_table(alloc: Global, note: &Note) -> Result<Option<Report>, AllocError>
    ensures { IfOk result (λ report. report ≡ table_observed note.now) }
{
    match note {
        Note::Began {
            range,
            generation,
            number,
            changes: _,
        } => Ok(Some(Report::Began {
            range: range.0,
            generation: generation.0,
            number: *number,
        })),
        Note::Done {
            range,
            generation,
            number,
        } => Ok(Some(Report::Done {
            range: range.0,
            generation: generation.0,
            number: *number,
        })),
        Note::Loaded {
            range,
            generation,
            rows,
            next,
        } => Ok(Some(Report::Loaded {
            range: range.0,
            generation: generation.0,
            next: *next,
            rows: rows.items.len() as u64,
        })),
        Note::Got {
            range,
            generation,
            key,
            value,
        } => report_get(alloc, *range, *generation, key, value),
        _ => report_map(alloc, note),
    }
}
