//! The metadata is read.
ghost use Rattle.std.specs.Prelude.{◌≡◌, suc, true};
ghost use Rattle.client.specs.Client.{last_extent};
ghost use Rattle.client.specs.Load.{is_open};
ghost use Rattle.model_partition.specs.Loading as rows;
ghost use Rattle.model_partition.specs.RangeSteps.{RangePerforms};

use crate::asking::{check_last, read_at};
use crate::log_reading::begins_log;
use metadata::Region;
use model_partition::{Progress, RangeContent, ServerContext, Stage};
use wire::StreamKind;

// The regions that each of these takes are a copy of those that the metadata says, made before anything has changed.
/// The extent at the position is read, or all is, and then the log.
pub(crate) fn reads_metadata(
    content: &mut RangeContent,
    context: &ServerContext,
    position: u64,
    regions: Vec<Region>,
) -> Progress
    requires opened { is_open content.old.load.phase ≡ true }
    requires copied { regions.items ≡ content.old.said.regions }
    ensures { RangePerforms context.now (λ r. rows.reads_metadata context.now r position) content.old content.new result }
{
    if position < content.metadata.extents.len() as u64 {
        content.metadata.pick = context.pick;
        let packet = read_at(&mut content.metadata, context, position);
        content.stage = Stage::Reading {
            kind: StreamKind::Metadata,
            position,
        };
        Progress::Goes(packet)
    } else {
        begins_log(content, context, regions)
    }
}

/// The same after the position.
pub(crate) fn reads_metadata_behind(
    content: &mut RangeContent,
    context: &ServerContext,
    position: u64,
    regions: Vec<Region>,
) -> Progress
    requires opened { is_open content.old.load.phase ≡ true }
    requires copied { regions.items ≡ content.old.said.regions }
    ensures { RangePerforms context.now (λ r. rows.reads_metadata context.now r (suc position)) content.old content.new result }
{
    if position < content.metadata.extents.len() as u64 {
        reads_metadata(content, context, position + 1, regions)
    } else {
        begins_log(content, context, regions)
    }
}

/// The length of the last extent is checked first, where it is open.
pub(crate) fn begins_metadata(
    content: &mut RangeContent,
    context: &ServerContext,
    regions: Vec<Region>,
) -> Progress
    requires opened { is_open content.old.load.phase ≡ true }
    requires copied { regions.items ≡ content.old.said.regions }
    ensures { RangePerforms context.now (λ r. rows.begins_metadata context.now r (last_extent r.metadata.extents)) content.old content.new result }
{
    match content.metadata.last_extent() {
        None => begins_log(content, context, regions),
        Some(extent) => {
            if extent.length.is_some() {
                return reads_metadata(content, context, 0, regions);
            }
            content.metadata.pick = context.pick;
            let packet = check_last(&mut content.metadata, context);
            content.stage = Stage::Checking {
                kind: StreamKind::Metadata,
            };
            Progress::Goes(packet)
        }
    }
}
