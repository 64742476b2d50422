//! The log is read.
ghost use Rattle.std.specs.Prelude.{◌≡◌, suc, true};
ghost use Rattle.client.specs.Client.{last_extent};
ghost use Rattle.client.specs.Load.{is_open};
ghost use Rattle.model_partition.specs.Range.{RangeState};
ghost use Rattle.model_partition.specs.Loading as rows;
ghost use Rattle.model_partition.specs.RangeSteps.{put, RangePerforms};

use crate::asking::{check_last, read_at};
use crate::index_reading::reads_index;
use metadata::Region;
use model_partition::{Progress, RangeContent, ServerContext, Stage};
use range_replay::open_region;
use wire::StreamKind;

/// The extent at the position is read, or all are, and then the indexes.
pub(crate) fn reads_log(
    content: &mut RangeContent,
    context: &ServerContext,
    position: u64,
) -> Progress
    requires { is_open content.old.load.phase ≡ true }
    ensures { RangePerforms context.now (λ r. rows.reads_log context.now r position) content.old content.new result }
{
    if position < content.log.extents.len() as u64 {
        content.log.pick = context.pick;
        let packet = read_at(&mut content.log, context, position);
        content.stage = Stage::Reading {
            kind: StreamKind::Log,
            position,
        };
        Progress::Goes(packet)
    } else {
        reads_index(content, context, 0)
    }
}

/// The same after the position.
pub(crate) fn reads_log_behind(
    content: &mut RangeContent,
    context: &ServerContext,
    position: u64,
) -> Progress
    requires { is_open content.old.load.phase ≡ true }
    ensures { RangePerforms context.now (λ r. rows.reads_log context.now r (suc position)) content.old content.new result }
{
    if position < content.log.extents.len() as u64 {
        reads_log(content, context, position + 1)
    } else {
        reads_index(content, context, 0)
    }
}

/// Where the log is read from; none where the first region begins outside of it.
fn first_position(content: &RangeContent, regions: &[Region]) -> Option<u64>
    ensures { (r : RangeState) → result ≡ rows.first_position (put content.now r) regions.now }
{
    match regions {
        [] => None,
        [region, ..] => {
            let index = region.start.index;
            let base = content.log.base;
            if index < base || index - base > content.log.extents.len() as u64 {
                return None;
            }
            Some(index - base)
        }
    }
}

/// The log is read from the first region on.
pub(crate) fn reads_log_from_start(content: &mut RangeContent, context: &ServerContext) -> Progress
    requires { is_open content.old.load.phase ≡ true }
    ensures { RangePerforms context.now (λ r. rows.reads_log_from context.now r (rows.first_position r r.regions)) content.old content.new result }
{
    match first_position(content, &content.regions) {
        None => Progress::Dropped,
        Some(position) => reads_log(content, context, position),
    }
}

/// The length of the last extent is checked first, where it is open.
fn checks_log(content: &mut RangeContent, context: &ServerContext) -> Progress
    requires { is_open content.old.load.phase ≡ true }
    ensures { RangePerforms context.now (λ r. rows.checks_log context.now r (last_extent r.log.extents)) content.old content.new result }
{
    match content.log.last_extent() {
        None => reads_log_from_start(content, context),
        Some(extent) => {
            if extent.length.is_some() {
                return reads_log_from_start(content, context);
            }
            content.log.pick = context.pick;
            let packet = check_last(&mut content.log, context);
            content.stage = Stage::Checking {
                kind: StreamKind::Log,
            };
            Progress::Goes(packet)
        }
    }
}

/// The metadata is read. The regions are a copy of those that it says.
pub(crate) fn begins_log(
    content: &mut RangeContent,
    context: &ServerContext,
    regions: Vec<Region>,
) -> Progress
    requires opened { is_open content.old.load.phase ≡ true }
    requires copied { regions.items ≡ content.old.said.regions }
    ensures { RangePerforms context.now (λ r. rows.begins_log context.now r) content.old content.new result }
{
    if open_region(&regions).is_none() {
        return Progress::Dropped;
    }
    if first_position(content, &regions).is_none() {
        return Progress::Dropped;
    }
    content.regions = regions;
    checks_log(content, context)
}
