//! No answer comes.
ghost use Rattle.std.specs.Prelude.{◌≡◌, ◌+◌, ◌<◌, ◌^◌, None, option_to_list};
ghost use Rattle.model_partition.specs.Answering.{gives_up_job};
ghost use Rattle.model_partition.specs.Checkpoints as rules;
ghost use Rattle.model_partition.specs.Range.{RangeState, used};
ghost use Rattle.model_partition.specs.RangeSteps.{put};

use crate::trim::{trim_out, trim_packet};
use model_partition::{RangeContent, ServerContext, next_request};
use wire::Packet;

/// What is sent where no answer comes.
#[derive(Drop)]
pub struct GivenUp {
    pub rows: Option<Packet>,
    pub trim: Option<Packet>,
}

/// The packet of the Trim that is out, again.
fn trim_again(content: &RangeContent, context: &ServerContext) -> Option<Packet>
    ensures { (r : RangeState) → option_to_list result ≡ rules.trim_again context.now (put content.now r) content.now.control }
{
    match trim_out(&content.control) {
        None => None,
        Some((before, to_blob, request)) => {
            Some(trim_packet(content, context, before, to_blob, &request))
        }
    }
}

/// What is not answered is sent again, and an extent that does not answer is sealed: the job of row data under the number after
/// the next two, and the Trim with its number.
pub fn give_up(content: &mut RangeContent, context: &ServerContext) -> GivenUp
    requires { context.now.count + 2 < 2 ^ 64 }
    ensures rows { gives_up_job (used (used context.now)) content.old.rows ≡ record { after = content.new.rows; packet = result.rows; news = None } }
    ensures trim { (r : RangeState) → option_to_list result.trim ≡ rules.trim_again context.now (put content.old r) content.old.control }
    ensures rest { content.new ≡ record content.old { rows = content.new.rows } }
{
    let mut behind = *context;
    behind.count = context.count + 2;
    let trim = trim_again(content, context);
    GivenUp {
        rows: content.rows.give_up(&next_request(&behind), &context.pick),
        trim,
    }
}
