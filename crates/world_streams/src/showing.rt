//! What servers show.
ghost use Rattle.std.specs.Prelude.{◌≡◌, ◌+◌, ◌≤◌, Some, IfOk, OnErr, option_map, vec_len, vec_capacity};
ghost use Rattle.model_partition.specs.declared.shown_table.ShownTable.{ShownTable};
ghost use Rattle.model_partition.specs.Servers.{noted, rows_of, server_takes, table_of_view};
ghost use Rattle.world_servers.specs.Servers.{outcome};
ghost use Rattle.world_steps.specs.ActorStep.{IsFew};
ghost use Rattle.world_streams.specs.ServersStep.{ShowsRows, told_with};

use crate::observations::Observations;
use model_partition::{TableNote, TableView};
use std::alloc::{AllocError, Global};
use wire::{Note, Packet, Rows, ServerNo};
use world_servers::Servers;
use world_steps::ActorStep;

/// What a server sends and shows, and the rows of the one table that it may show as loaded.
#[derive(Drop)]
pub(crate) struct Given {
    pub(crate) step: ActorStep,
    pub(crate) rows: Rows,
}

/// The rows of a table that is about to be shown, after these observations.
fn rows_for(
    alloc: Global,
    loading: Option<TableView<'_>>,
    observed: &mut Observations,
) -> Result<Rows, AllocError>
    ensures rows { IfOk result (λ rows. (table : ShownTable) → option_map table_of_view loading.entry ≡ Some table → rows ≡ rows_of observed.old.items table) }
    ensures same { observed.new ≡ observed.old }
{
    match loading {
        None => Ok(Rows {
            items: Vec::new(alloc),
        }),
        Some(table) => match observed.rows_of(alloc, &table) {
            Ok(rows) => Ok(rows),
            Err(full) => Err(full),
        },
    }
}

/// Gives a packet to a server. The rows of what it may show are made before it makes its step.
pub(crate) fn give(
    servers: &mut Servers,
    alloc: Global,
    server: ServerNo,
    packet: &Packet,
    observed: &mut Observations,
) -> Result<Given, AllocError>
    ensures ok { IfOk result (λ given. server_takes servers.old.cells server packet.now ≡ outcome servers.new.cells given.step) }
    ensures rows { IfOk result (λ given. ShowsRows observed.old.items given.rows given.step.tables) }
    ensures same { observed.new ≡ observed.old }
    ensures servers_same { (servers.new.moment ≡ servers.old.moment) × (servers.new.batch ≡ servers.old.batch) }
    ensures err { OnErr result (servers.new ≡ servers.old) }
    ensures few { IfOk result (λ given. IsFew given.step) }
{
    let rows = match rows_for(alloc, servers.loading(server, &packet.body), observed) {
        Ok(rows) => rows,
        Err(full) => return Err(full),
    };
    match servers.give(alloc, server, packet) {
        Ok(step) => Ok(Given { step, rows }),
        Err(full) => Err(full),
    }
}

/// An observation of a server, with these rows where it is of a loaded table.
fn told(note: TableNote, rows: Rows) -> Note
    ensures { result ≡ told_with note rows }
{
    match note {
        TableNote::Began {
            range,
            generation,
            number,
            changes,
        } => Note::Began {
            range,
            generation,
            number,
            changes,
        },
        TableNote::Done {
            range,
            generation,
            number,
        } => Note::Done {
            range,
            generation,
            number,
        },
        TableNote::Loaded {
            range,
            generation,
            next,
            ..
        } => Note::Loaded {
            range,
            generation,
            rows,
            next,
        },
        TableNote::Got {
            range,
            generation,
            key,
            value,
        } => Note::Got {
            range,
            generation,
            key,
            value,
        },
    }
}

/// Puts what a server shows at the end, into room that is there. These are the rows of the one table that it may show.
pub(crate) fn show(alloc: Global, list: &mut Observations, more: Vec<TableNote>, rows: Rows)
    requires room { vec_len list.old + vec_len more ≤ vec_capacity list.old }
    requires rows { ShowsRows list.old.items rows more.items }
    ensures { list.new.items ≡ noted list.old.items more.items }
{
    let mut left = rows;
    for note in more {
        let rows = std::mem::replace(
            &mut left,
            Rows {
                items: Vec::new(alloc),
            },
        );
        list.push_reserved(told(note, rows));
    }
}
