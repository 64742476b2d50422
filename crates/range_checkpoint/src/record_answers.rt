//! The answers to the metadata's client of a range that is served.
ghost use Rattle.std.specs.Prelude.{◌≡◌, ◌∷◌, ◌+◌, ◌<◌, ◌^◌, true, false, IfOk, IfSome, OnOk, OnErr};
ghost use Rattle.client.specs.Client.{needs_memory};
ghost use Rattle.model_partition.specs.declared.checkpoint_job.CheckpointPhase.TheVariants as phases;
ghost use Rattle.model_partition.specs.declared.progress.Progress.TheVariants.{Goes};
ghost use Rattle.checkpoint.specs.Lookup.{HasIndex};
ghost use Rattle.model_partition.specs.Answering as answers;
ghost use Rattle.model_partition.specs.Checkpoints as rules;
ghost use Rattle.model_partition.specs.Range.{is_serving};
ghost use Rattle.model_partition.specs.RangeSteps.{RangePerforms};
ghost use Rattle.range_checkpoint.specs.Records as records;

use crate::append_answers::{appended, told};
use crate::trim::trims;
use block_types::BlockFault;
use checkpoint::{Index, InstalledIndex, InstalledIndexes};
use memtable::Place;
use metadata::{MetaItem, MetaRecord, Metadata, copied_keys};
use model_partition::{
    CheckpointJob, CheckpointPhase, Progress, RangeContent, ServerContext, take_answer,
};
use std::alloc::{AllocError, Global};
use streams::Position;
use wire::{Body, Packet};

/// What a checkpoint's record that stands leaves: what the metadata says then, the index that counts from now on, whether it
/// stands for all older ones, and the position and the number that the checkpoint noted.
#[derive(Drop)]
pub(crate) struct Recorded {
    pub(crate) said: Metadata,
    pub(crate) installed: InstalledIndex,
    pub(crate) combine: bool,
    pub(crate) position: Position,
    pub(crate) next: u64,
}

/// The same of a job whose index stands at a place.
fn recorded_at(
    job: &CheckpointJob,
    said: &Metadata,
    alloc: Global,
    place: Place,
) -> Result<Recorded, AllocError>
    requires phase { job.now.phase ≡ phases.Record place }
    requires number { said.now.next + 1 < 2 ^ 64 }
    ensures value { IfOk result (λ x. x ≡ records.recorded_at said.now job.now place) }
    ensures range { IfOk result (λ x. HasIndex x.installed) }
{
    let mut after = said.copy(alloc)?;
    let record = MetaRecord {
        number: said.next,
        item: MetaItem::Checkpoint {
            combine: job.combine,
            index: place,
            position: job.position,
            next: job.next,
        },
    };
    match after.fold(alloc, record) {
        Ok(_) => {}
        Err(BlockFault::Memory) => return Err(AllocError),
        // it has the next number, and one is left after it
        Err(BlockFault::Damaged) => unreachable!(),
    }
    let index = job.pages.index();
    Ok(Recorded {
        said: after,
        installed: InstalledIndex {
            place,
            keys: copied_keys(&said.keys)?,
            index: Index {
                pages: index.pages.copy(alloc)?,
                has_place: index.has_place,
            },
        },
        combine: job.combine,
        position: job.position,
        next: job.next,
    })
}

/// The same of the checkpoint that is under way, if its record is out and its number leaves one.
fn record_left(
    control: &Option<CheckpointJob>,
    said: &Metadata,
    alloc: Global,
) -> Result<Option<Recorded>, AllocError>
    ensures value { IfOk result (λ x. x ≡ records.recorded_of said.now control.now) }
    ensures range { IfOk result (λ x. IfSome x (λ y. HasIndex y.installed)) }
{
    let Some(job) = control else {
        return Ok(None);
    };
    match job.phase {
        CheckpointPhase::Record { index } => {
            if said.next < u64::MAX {
                Ok(Some(recorded_at(job, said, alloc, index)?))
            } else {
                Ok(None)
            }
        }
        _ => Ok(None),
    }
}

/// The answer to the append of a record is taken, which takes no memory.
fn take_appended(
    content: &mut RangeContent,
    alloc: Global,
    context: &ServerContext,
    packet: &Packet,
)
    requires { needs_memory packet.now.body ≡ false }
    ensures { content.new ≡ record content.old { metadata = (records.metadata_reaction context.now content.old.metadata packet.now.body).after } }
{
    let Ok(reaction) = take_answer(&mut content.metadata, alloc, context, packet) else {
        unreachable!()
    };
    drop(reaction);
}

/// The index becomes the newest, in place of all older ones where it combines them. Where memory runs out (22) nothing has
/// changed.
fn add_index(
    indexes: &mut InstalledIndexes,
    alloc: Global,
    combine: bool,
    installed: InstalledIndex,
) -> Result<(), AllocError>
    requires { HasIndex installed }
    ensures ok { OnOk result (indexes.new ≡ installed ∷ rules.indexes_below combine indexes.old) }
    ensures err { OnErr result (indexes.new ≡ indexes.old) }
{
    if !combine {
        return indexes.install(installed);
    }
    let mut alone = Vec::with_capacity(alloc, 1)?;
    alone.push_reserved(installed);
    *indexes = InstalledIndexes::of(alone);
    Ok(())
}

fn is_record_out(control: &Option<CheckpointJob>) -> bool
    ensures { result ≡ records.is_record_out control.now }
{
    match control {
        None => false,
        Some(job) => matches!(job.phase, CheckpointPhase::Record { .. }),
    }
}

/// Whether an answer says that the record of the checkpoint that is under way stands.
pub fn is_recorded(content: &RangeContent, answer: &Body) -> bool
    ensures { result ≡ records.is_recorded content.now.metadata content.now.control answer.now }
{
    is_record_out(&content.control) && appended(&content.metadata, answer).is_some()
}

/// The record of the checkpoint that is under way stands, as this answer says: the metadata says what is in it, its index counts
/// from now on, the fixed layer goes, and the packet of the Trim is what it answers. It answers none where the record took the last
/// number of the metadata. Where memory runs out (22) nothing has changed.
pub fn install(
    content: &mut RangeContent,
    alloc: Global,
    context: &ServerContext,
    packet: &Packet,
) -> Result<Option<Packet>, AllocError>
    requires { records.is_recorded content.old.metadata content.old.control packet.now.body ≡ true }
    ensures ok { IfOk result (λ trim. RangePerforms context.now (λ r. records.installs context.now r packet.now.body) content.old content.new (Goes trim)) }
    ensures err { OnErr result (content.new ≡ content.old) }
{
    let Some(recorded) = record_left(&content.control, &content.said, alloc)? else {
        take_appended(content, alloc, context, packet);
        return Ok(None);
    };
    let Recorded {
        said,
        installed,
        combine,
        position,
        next,
    } = recorded;
    add_index(&mut content.indexes, alloc, combine, installed)?;
    content.said = said;
    content.table.drop_layer();
    take_appended(content, alloc, context, packet);
    Ok(Some(trims(content, alloc, context, &position, next)))
}

/// Another answer to what is out to the metadata of a range that is served: the client goes on. The range is dropped where its
/// generation is old (3). Where memory runs out (22) nothing has changed.
pub fn record_reply(
    content: &mut RangeContent,
    alloc: Global,
    context: &ServerContext,
    packet: &Packet,
) -> Result<Progress, AllocError>
    requires serving { is_serving content.old.stage ≡ true }
    requires other { records.is_recorded content.old.metadata content.old.control packet.now.body ≡ false }
    ensures ok { IfOk result (λ p. RangePerforms context.now (λ r. answers.metadata_reply context.now r packet.now.body) content.old content.new p) }
    ensures err { OnErr result (content.new ≡ content.old) }
{
    let reaction = take_answer(&mut content.metadata, alloc, context, packet)?;
    Ok(told(reaction))
}
