//! Where news lets the reading of a stream go on.
ghost use Rattle.std.specs.Prelude.{◌≡◌, true, List, None, option_to_list};
ghost use Rattle.client.specs.Client.{content_told};
ghost use Rattle.wire.specs.declared.packet.Packet.{Packet as Sent};
ghost use Rattle.model_partition.specs.declared.server_context.ServerContext.{ServerContext};
ghost use Rattle.model_partition.specs.Range.{RangeState};
ghost use Rattle.model_partition.specs.Loading as rows;
ghost use Rattle.model_partition.specs.RangeSteps.{outcome};
ghost use Rattle.model_partition.specs.LoadStages.{is_reading};
ghost use Rattle.range_load.specs.Turns.{stays, metadata_turn, log_turn, reads_next};

use client::News;
use model_partition::{Progress, Stage};
use wire::Packet;

/// What news other than of groups lets the load read next of a stream.
pub(crate) enum Turn {
    /// Nothing.
    Stays,
    /// The stream from its start.
    Starts,
    /// The extent at this position.
    Reads(u64),
}

/// What is read next, of the metadata as of the log.
pub(crate) fn turn_of(told: &Option<News>, stage: &Stage) -> Turn
    requires { content_told told.now ≡ None }
    ensures metadata { (d : ServerContext) (r : RangeState) (groups : List rows.Group) (packets : List Sent)
        → rows.metadata_news d r groups stage.now told.now packets ≡ metadata_turn d r told.now packets result }
    ensures log { (d : ServerContext) (r : RangeState) (groups : List rows.Group) (packets : List Sent)
        → rows.log_news d r groups stage.now told.now packets ≡ log_turn d r told.now packets result }
    ensures reading { reads_next result ≡ true → is_reading stage.now ≡ true }
{
    match told {
        Some(News::Checked { .. }) => match stage {
            Stage::Checking { .. } => Turn::Starts,
            _ => Turn::Stays,
        },
        Some(News::Sealed { .. }) => match stage {
            Stage::Checking { .. } => Turn::Starts,
            Stage::Reading { position, .. } => Turn::Reads(*position),
            _ => Turn::Stays,
        },
        _ => Turn::Stays,
    }
}

/// The packet goes where nothing is read next, and the range is of no use where its generation is old.
pub(crate) fn sent(told: &Option<News>, packet: Option<Packet>) -> Progress
    ensures { (d : ServerContext) (r : RangeState) → stays d r told.now (option_to_list packet) ≡ outcome d r result }
{
    match told {
        Some(News::Fenced) => {
            drop(packet);
            Progress::Dropped
        }
        _ => Progress::Goes(packet),
    }
}
