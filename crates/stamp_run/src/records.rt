//! What stands beside the entries: the packets and the log.
ghost use Rattle.std.specs.Prelude.{◌≡◌, ◌+◌, ◌<◌, ◌≤◌, [], ◌∷◌, ◌++◌, length, vec_capacity, vec_len};

use crate::log_entry::LogEntry;
use crate::logged_event::LoggedEvent;
use wire::Packet;
use world_steps::ActorStep;

/// Moves these to the end, into room that was made.
fn move_in<T: Drop>(list: &mut Vec<T>, more: Vec<T>)
    requires { vec_len list.old + vec_len more ≤ vec_capacity list.old }
    ensures len { vec_len list.new ≡ vec_len list.old + vec_len more }
    ensures moved { list.new.items ≡ list.old.items ++ more.items }
    ensures room { vec_capacity list.new ≡ vec_capacity list.old }
{
    for item in more {
        list.push_reserved(item);
    }
}

/// Adds the packets of a step and its entry of the log, into room that was made.
pub(crate) fn record(
    packets: &mut Vec<Packet>,
    log: &mut Vec<LogEntry>,
    pass: usize,
    event: LoggedEvent,
    step: ActorStep,
)
    requires packets { vec_len packets.old + length step.packets ≤ vec_capacity packets.old }
    requires log { vec_len log.old < vec_capacity log.old }
    ensures packets { packets.new.items ≡ packets.old.items ++ step.packets }
    ensures log { log.new.items ≡ log.old.items ++ record { pass = pass; event = event; notes = step.notes; tables = step.tables; refusal = step.refusal } ∷ [] }
    ensures len { (vec_len packets.new ≡ vec_len packets.old + length step.packets) × (vec_len log.new ≡ vec_len log.old + 1) }
    ensures room { (vec_capacity packets.new ≡ vec_capacity packets.old) × (vec_capacity log.new ≡ vec_capacity log.old) }
{
    let ActorStep {
        packets: sent,
        notes,
        tables,
        refusal,
    } = step;
    move_in(packets, sent.into_vec());
    log.push_reserved(LogEntry {
        pass,
        event,
        notes,
        tables,
        refusal,
    });
}
