//! No answer comes to the checkpoint of a range, and nothing else of the range gives up.
ghost use Rattle.std.specs.Prelude.{◌≡◌, ◌<◌, ◌≤◌, ◌+◌, ◌++◌, ◌^◌, Some, None, option_map, option_to_list, vec_len, vec_capacity};
ghost use Rattle.model_partition.specs.Answering.{gives_up_job, gives_up_reading};
ghost use Rattle.model_partition.specs.ControlJobs.{give_up_control};
ghost use Rattle.model_partition.specs.PlaceReads as reads;
ghost use Rattle.model_partition.specs.Range.{RangeState as RangeStateOf, used};
ghost use Rattle.model_partition.specs.RangeSteps.{put};

use crate::range_step::push_some;
use crate::state::{RangeState, extents_of, known_extents};
use model_partition::{
    PlaceRead, RangeContent, ServerContext, moved_on, next_request, places_of, reads_place,
};
use range_checkpoint::GivenUp;
use wire::Packet;

/// The read of a page at the next replica.
fn moved_reading(reading: &Option<PlaceRead>) -> Option<PlaceRead>
    ensures { result ≡ option_map reads.moved_on reading.now }
{
    match reading {
        None => None,
        Some(read) => Some(moved_on(read)),
    }
}

/// The packet of that read, if its extent is known.
fn reading_again(content: &RangeContent, context: &ServerContext) -> Option<Packet>
    ensures { (r : RangeStateOf) → option_to_list result ≡ gives_up_reading context.now (put content.now r) content.now.reading }
{
    match &content.reading {
        None => None,
        Some(read) => {
            let places = places_of(
                known_extents(&content.log),
                extents_of(&content.blob_data),
                known_extents(&content.rows),
                read.place.extent,
            )?;
            Some(reads_place(context, &places, &moved_on(read)))
        }
    }
}

/// The job of the metadata gives up under the number after the next, and the read of a page goes to the next replica of its extent, with
/// its number: what is sent for each.
fn record_and_reading_again(
    content: &mut RangeContent,
    context: &ServerContext,
) -> (Option<Packet>, Option<Packet>)
    requires { context.now.count + 1 < 2 ^ 64 }
    ensures metadata { gives_up_job (used context.now) content.old.metadata ≡ record { after = content.new.metadata; packet = result.0; news = None } }
    ensures reading { (r : RangeStateOf) → option_to_list result.1 ≡ gives_up_reading context.now (put content.old r) content.old.reading }
    ensures rest { content.new ≡ record content.old { metadata = content.new.metadata; reading = option_map reads.moved_on content.old.reading } }
{
    let mut behind = *context;
    behind.count = context.count + 1;
    let reading = reading_again(content, context);
    content.reading = moved_reading(&content.reading);
    let metadata = content
        .metadata
        .give_up(&next_request(&behind), &context.pick);
    (metadata, reading)
}

impl RangeState {
    /// What a checkpoint waits for is sent again, or an extent that does not answer is sealed: the jobs of the metadata and of row
    /// data, the read of a page and the Trim, in this order; neither the load nor the log's job nor the Gets give up. What is sent, at
    /// most four packets, goes behind those that are there, into room that is there. It takes no memory, and three of the server's numbers.
    pub fn give_up_control(&mut self, context: &ServerContext, packets: &mut Vec<Packet>)
        requires numbers { context.now.count + 3 < 2 ^ 64 }
        requires room { vec_len packets.old + 4 ≤ vec_capacity packets.old }
        ensures state { (give_up_control context.now self.old).after ≡ Some self.new }
        ensures sent { packets.new.items ≡ packets.old.items ++ (give_up_control context.now self.old).packets }
        ensures few { vec_len packets.new ≤ vec_len packets.old + 4 }
    {
        let (metadata, reading) = record_and_reading_again(&mut self.content, context);
        let GivenUp { rows, trim } = range_checkpoint::give_up(&mut self.content, context);
        push_some(packets, metadata);
        push_some(packets, rows);
        push_some(packets, reading);
        push_some(packets, trim);
    }
}
