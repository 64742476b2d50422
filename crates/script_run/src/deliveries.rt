//! Which packets a settle may still take.
ghost use Rattle.std.specs.Prelude.{◌≡◌, ◌<◌, ℕ, [], IfNone, IfOk, IfSome, OnErr, OnOk, length};
ghost use Rattle.std.specs.List.{slice_get};
ghost use Rattle.script_run.specs.Deliveries.{Delivered, IsLowest, NoneLeft, Passed, is_cut, is_noted};

use std::alloc::{AllocError, Global};
use std::marker::Model;
use wire::{ActorId, Packet};

/// The packets that no settle takes any more, by number: they were delivered or passed over.
#[derive(Drop)]
pub struct Deliveries {
    noted: Vec<bool>,
    lowest: usize,
}

impl Model for Deliveries {
    ghost use Rattle.std.specs.Prelude.{◌≡◌, ◌<◌, ℕ, Bool, List, true};
    ghost use Rattle.script_run.specs.Deliveries.{is_noted};

    ghost Value = { List Bool };

    ghost view = { λ d. d.noted.items };

    // Looking begins at the lowest, since all below it are noted.
    ghost invariant = { λ d. (n : ℕ) → n < d.lowest → is_noted d.noted.items n ≡ true };
}

/// Whether packet `number` is to one of these actors.
fn is_cut(cut: &[ActorId], sent: &[Packet], number: usize) -> bool
    ensures { result ≡ is_cut cut.now (slice_get sent.now number) }
{
    match sent.get(number) {
        Some(packet) => cut.contains(&packet.to),
        None => false,
    }
}

/// How many packets more than are asked for get room at once, so that it is not made again at each delivery.
const SPARE: usize = 1024;

/// Makes room for what is noted of packet `number`.
fn widen(noted: &mut Vec<bool>, number: usize) -> Result<(), AllocError>
    ensures same { OnOk result ((m : ℕ) → is_noted noted.new.items m ≡ is_noted noted.old.items m) }
    ensures room { OnOk result (number < length noted.new.items) }
    ensures err { OnErr result (noted.new.items ≡ noted.old.items) }
{
    if number < noted.len() {
        return Ok(());
    }
    match number.checked_add(SPARE) {
        Some(room) => noted.resize(room, false),
        None => Err(AllocError),
    }
}

impl Deliveries {
    /// None yet.
    pub fn new(alloc: Global) -> Deliveries
        ensures { result ≡ [] }
    {
        Deliveries {
            noted: Vec::new(alloc),
            lowest: 0,
        }
    }

    fn is_noted(&self, number: usize) -> bool
        ensures { result ≡ is_noted self.now number }
    {
        match self.noted.get(number) {
            Some(noted) => *noted,
            None => false,
        }
    }

    /// Notes that a packet was delivered. An error is out of memory (22), and nothing has changed then.
    pub fn note(&mut self, number: usize) -> Result<(), AllocError>
        ensures ok { OnOk result (Delivered self.old number self.new) }
        ensures err { OnErr result (self.new ≡ self.old) }
    {
        widen(&mut self.noted, number)?;
        self.noted[number] = true;
        Ok(())
    }

    /// The lowest packet that a settle takes, of those that were sent and are not to an actor that is cut off. Those below it
    /// are passed over for good; where there is none, all are. An error is out of memory (22).
    pub fn next(&mut self, cut: &[ActorId], sent: &[Packet]) -> Result<Option<usize>, AllocError>
        ensures found { IfOk result (λ found. IfSome found (λ n. IsLowest cut.now sent.now self.old n × Passed self.old n self.new)) }
        ensures none { IfOk result (λ found. IfNone found (NoneLeft cut.now sent.now self.old
            × Passed self.old (length sent.now) self.new)) }
    {
        for number in self.lowest..sent.len() {
            if self.is_noted(number) {
                continue;
            }
            if !is_cut(cut, sent, number) {
                self.lowest = number;
                return Ok(Some(number));
            }
            self.note(number)?;
        }
        self.lowest = sent.len();
        Ok(None)
    }
}
