//! No answer comes.
ghost use Rattle.std.specs.Prelude.{◌≡◌, ◌<◌, ◌≤◌, ◌+◌, ◌++◌, ◌^◌, length, vec_len, vec_capacity, option_to_list, IfOk, OnErr};
ghost use Rattle.model_partition.specs.Answering.{give_up_all};
ghost use Rattle.range_core.specs.Steps.{outcome, IsShort};

use crate::range_step::{RangeStep, append_reserved, push_some};
use crate::state::{RangeState, extents_of, held_under, indexes_of, known_extents};
use model_partition::ServerContext;
use range_reads::{Asking, MAX_GETS};
use std::alloc::{AllocError, Global};
use wire::Packet;

/// What the load and the clients of the log, of the metadata and of row data send, then the read of an index or of a page, the
/// Trim, and then those of Gets, in room that is there.
fn gathered(
    packets: Vec<Packet>,
    loading: range_load::GivenUp,
    checkpoint: range_checkpoint::GivenUp,
    reads: Vec<Packet>,
) -> Vec<Packet>
    requires room { vec_len packets + 262 ≤ vec_capacity packets }
    requires few { length reads.items ≤ 256 }
    ensures { result.items ≡ ((((((packets.items ++ option_to_list loading.load) ++ option_to_list loading.log) ++ option_to_list loading.metadata) ++ option_to_list checkpoint.rows) ++ option_to_list loading.reading) ++ option_to_list checkpoint.trim) ++ reads.items }
{
    let range_load::GivenUp {
        load,
        log,
        metadata,
        reading,
    } = loading;
    let range_checkpoint::GivenUp { rows, trim } = checkpoint;
    let mut packets = packets;
    push_some(&mut packets, load);
    push_some(&mut packets, log);
    push_some(&mut packets, metadata);
    push_some(&mut packets, rows);
    push_some(&mut packets, reading);
    push_some(&mut packets, trim);
    append_reserved(&mut packets, reads);
    packets
}

impl RangeState {
    /// What is not answered is sent again, or an extent that does not answer is sealed: the load, the jobs of the log, of the
    /// metadata and of row data, the read of an index or of a page, the Trim and the Gets, in this order. Where memory runs out (22) nothing has changed.
    pub fn give_up(
        &mut self,
        alloc: Global,
        context: &ServerContext,
    ) -> Result<RangeStep, AllocError>
        requires numbers { context.now.count + 1024 < 2 ^ 64 }
        ensures ok { IfOk result (λ t. give_up_all context.now self.old ≡ outcome t self.new) }
        ensures err { OnErr result (self.new ≡ self.old) }
        ensures short { IfOk result IsShort }
    {
        let packets = Vec::with_capacity(alloc, 6 + MAX_GETS)?;
        let content = &self.content;
        let (range, generation) = held_under(content);
        let asking = Asking {
            context,
            range,
            generation,
            until: self.until,
            pause: self.pause,
            table: &content.table,
            log: known_extents(&content.log),
            blob: extents_of(&content.blob_data),
            rows: known_extents(&content.rows),
            indexes: indexes_of(content),
        };
        let reads = self.lookups.give_up(alloc, &asking)?;
        let loading = range_load::give_up(&mut self.content, context);
        let checkpoint = range_checkpoint::give_up(&mut self.content, context);
        let sent = gathered(packets, loading, checkpoint, reads);
        Ok(RangeStep::sends(alloc, context.count + 3, sent))
    }
}
