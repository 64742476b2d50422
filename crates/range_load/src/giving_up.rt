//! No answer comes.
ghost use Rattle.std.specs.Prelude.{◌≡◌, ◌+◌, ◌<◌, ◌^◌, None, option_map, option_to_list};
ghost use Rattle.client.specs.Load.{again};
ghost use Rattle.model_partition.specs.Answering.{gives_up_job, gives_up_reading};
ghost use Rattle.model_partition.specs.PlaceReads as reads;
ghost use Rattle.model_partition.specs.Range.{RangeState, used};
ghost use Rattle.model_partition.specs.RangeSteps.{put};

use crate::index_reading::places_known;
use model_partition::{
    PlaceRead, RangeContent, ServerContext, moved_on, next_request, reads_place,
};
use wire::Packet;

/// What is sent where no answer comes.
#[derive(Drop)]
pub struct GivenUp {
    pub load: Option<Packet>,
    pub log: Option<Packet>,
    pub metadata: Option<Packet>,
    pub reading: Option<Packet>,
}

/// The read of an index at the next replica.
fn moved_reading(reading: &Option<PlaceRead>) -> Option<PlaceRead>
    ensures { result ≡ option_map reads.moved_on reading.now }
{
    match reading {
        None => None,
        Some(read) => Some(moved_on(read)),
    }
}

/// The packet of that read, if its extent is known.
fn reading_again(content: &RangeContent, context: &ServerContext) -> Option<Packet>
    ensures { (r : RangeState) → option_to_list result ≡ gives_up_reading context.now (put content.now r) content.now.reading }
{
    match &content.reading {
        None => None,
        Some(read) => {
            let places = places_known(content, read.place.extent)?;
            Some(reads_place(context, &places, &moved_on(read)))
        }
    }
}

/// What is not answered is sent again, and an extent that does not answer is sealed: the opening or the confirmation, then
/// the log's job under the next number, and the metadata's under the one after it. The read of an index goes to the next replica
/// of its extent, with its number.
pub fn give_up(content: &mut RangeContent, context: &ServerContext) -> GivenUp
    requires { context.now.count + 1 < 2 ^ 64 }
    ensures load { result.load ≡ again content.old.load content.old.load.phase }
    ensures log { gives_up_job context.now content.old.log
        ≡ record { after = content.new.log; packet = result.log; news = None } }
    ensures metadata { gives_up_job (used context.now) content.old.metadata
        ≡ record { after = content.new.metadata; packet = result.metadata; news = None } }
    ensures reading { (r : RangeState) → option_to_list result.reading ≡ gives_up_reading context.now (put content.old r) content.old.reading }
    ensures rest { content.new ≡ record content.old { metadata = content.new.metadata; log = content.new.log; reading = option_map reads.moved_on content.old.reading } }
{
    let mut behind = *context;
    behind.count = context.count + 1;
    let reading = reading_again(content, context);
    content.reading = moved_reading(&content.reading);
    GivenUp {
        load: content.load.give_up(),
        log: content.log.give_up(&next_request(context), &context.pick),
        metadata: content
            .metadata
            .give_up(&next_request(&behind), &context.pick),
        reading,
    }
}
