//! A script as it runs.
ghost use Rattle.std.specs.Prelude.{◌≡◌, ◌++◌, ◌∷◌, ◌-◌, [], IfErr, IfNone, IfOk, IfSome, None, OnOk, filter, length, not};
ghost use Rattle.std.specs.Io.KnownBytes.{Appends};
ghost use Rattle.model_streams.specs.declared.event.Event.TheVariants as events;
ghost use Rattle.model_partition.specs.Cluster.{first_cluster};
ghost use Rattle.script_run.specs.Deliveries.{Delivered, IsLowest, Passed, is_same};
ghost use Rattle.script_run.specs.Failures.{IsRunFailure};
ghost use Rattle.script_run.specs.Output.{Prints, line};
ghost use Rattle.script_run.specs.Playing.{Delivers, DeliversPacket, Happens, IsFresh, IsSettled, Plays, Settles, Submits};
ghost use Rattle.world.specs.Cluster.{ClusterMirrors, IsRun};

use crate::deliveries::Deliveries;
use crate::error::Failure;
use crate::happening::{deliver, happen, look};
use crate::printing::print_some;
use crate::tickets::Tickets;
use script_lines::{Line, Request, call_of};
use script_reports::{Report, ShortLine, report_answer};
use std::alloc::{AllocError, Global};
use std::io::Write;
use std::marker::Model;
use wire::{ActorId, Packet, ReqNo};
use world::{Event, Run, Setup};

/// The most packets that one settle delivers.
pub const MOST_DELIVERIES: usize = 100_000;

/// The actors, the network, what users have asked, and to whom no settle delivers.
#[derive(Drop)]
pub struct Session {
    alloc: Global,
    run: Run,
    deliveries: Deliveries,
    tickets: Tickets,
    cut: Vec<ActorId>,
    // the memory in which lines are put together
    short: ShortLine,
}

impl Model for Session {
    ghost use Rattle.script_run.specs.Playing.{SessionState};

    ghost Value = { SessionState };

    ghost view = { λ s. record { run = s.run; noted = s.deliveries; tickets = s.tickets; cut = s.cut.items } };
}

/// Takes an actor out.
fn take_out(cut: &mut Vec<ActorId>, actor: ActorId)
    ensures { cut.new.items ≡ filter (λ other. not (is_same other actor)) cut.old.items }
{
    cut.retain(|other| *other != actor);
}

impl Session {
    /// A stamp of this setup, in which nothing has happened. An error is out of memory (22).
    pub fn start(alloc: Global, setup: &Setup) -> Result<Session, Failure>
        ensures fresh { IfOk result IsFresh }
        ensures mirrors { IfOk result (λ s. ClusterMirrors s.run
            (first_cluster setup.now.nodes setup.now.servers setup.now.target setup.now.batch)) }
        ensures failed { IfErr result IsRunFailure }
    {
        Ok(Session {
            alloc,
            run: Run::start(alloc, setup)?,
            deliveries: Deliveries::new(alloc),
            tickets: Tickets::new(alloc),
            cut: Vec::new(alloc),
            short: ShortLine::newline(),
        })
    }

    /// All packets that were sent, in order: their places, from 0, are their numbers.
    pub fn sent(&self) -> &[Packet]
        ensures sent { result.now ≡ self.now.run.stream_layer.post }
        ensures led { IsRun self.now.run }
    {
        self.run.sent()
    }

    /// Runs a line, and prints what is observed and answered. An error is out of memory (22), or that the writer failed.
    pub fn play<W: Write>(&mut self, line: Line, writer: &mut W) -> Result<(), Failure>
        ensures played { OnOk result (Prints (W.contents writer.old) (W.contents writer.new) (λ text. Plays self.old line text self.new)) }
        ensures failed { IfErr result IsRunFailure }
    {
        match line {
            Line::Submit { user, request } => self.submit(user, request),
            Line::Deliver(number) => self.deliver(number as usize, writer),
            Line::DeliverLast => self.deliver_last(writer),
            Line::Settle => self.settle(writer),
            Line::Cut(actor) => self.cut_off(actor),
            Line::Heal(actor) => {
                self.heal(actor);
                Ok(())
            }
            Line::Show { node, extent } => {
                let seen = look(&self.run, node, extent);
                self.tell(&Some(seen), writer)
            }
            Line::Happens(event) => self.observe(event.into_event(), writer),
        }
    }

    /// An event happens, and what is observed of it is printed.
    fn observe<W: Write>(&mut self, event: Event, writer: &mut W) -> Result<(), Failure>
        ensures happens { OnOk result (Prints (W.contents writer.old) (W.contents writer.new) (λ text. Happens self.old event text self.new)) }
        ensures failed { IfErr result IsRunFailure }
    {
        happen(&mut self.run, self.alloc, event, &mut self.short, writer)
    }

    /// Prints a line, if there is one.
    fn tell<W: Write>(&mut self, report: &Option<Report>, writer: &mut W) -> Result<(), Failure>
        ensures printed { OnOk result (Appends (W.contents writer.old) (W.contents writer.new) (line report.now)) }
        ensures same { self.new ≡ self.old }
        ensures failed { IfErr result IsRunFailure }
    {
        print_some(report, &mut self.short, writer)
    }

    fn cut_off(&mut self, actor: ActorId) -> Result<(), Failure>
        ensures cut { OnOk result (self.new ≡ record self.old { cut = self.old.cut ++ actor ∷ [] }) }
        ensures failed { IfErr result IsRunFailure }
    {
        self.cut.push(actor)?;
        Ok(())
    }

    fn heal(&mut self, actor: ActorId)
        ensures { self.new ≡ record self.old { cut = filter (λ other. not (is_same other actor)) self.old.cut } }
    {
        take_out(&mut self.cut, actor);
    }

    fn submit(&mut self, user: u64, asked: Request) -> Result<(), Failure>
        ensures submits { OnOk result (Submits self.old user asked [] self.new) }
        ensures failed { IfErr result IsRunFailure }
    {
        let ticket = self.tickets.take(user)?;
        let (to, body) = call_of(ReqNo::User { user, ticket }, asked);
        self.run.submit(user, to, body)?;
        Ok(())
    }

    /// Delivers the packet of this number, and prints what is observed and the answer that it brings to a user. A number that was
    /// never sent delivers nothing. An error is out of memory (22), or that the writer failed.
    pub fn deliver<W: Write>(&mut self, number: usize, writer: &mut W) -> Result<(), Failure>
        ensures delivers { OnOk result (Prints (W.contents writer.old) (W.contents writer.new)
            (λ text. Delivers self.old number text self.new)) }
        ensures failed { IfErr result IsRunFailure }
    {
        match self.run.sent().get(number) {
            Some(packet) => match packet.to {
                ActorId::User(_) => {
                    let answer = report_answer(self.alloc, packet)?;
                    self.hand_over(number, &answer, writer)
                }
                _ => self.pass_on(number, writer),
            },
            None => Ok(()),
        }
    }

    /// The packet that was sent last is delivered.
    fn deliver_last<W: Write>(&mut self, writer: &mut W) -> Result<(), Failure>
        ensures delivers { OnOk result (Prints (W.contents writer.old) (W.contents writer.new)
            (λ text. Delivers self.old (length self.old.run.stream_layer.post - 1) text self.new)) }
        ensures failed { IfErr result IsRunFailure }
    {
        let last = self.run.sent().len().saturating_sub(1);
        self.deliver(last, writer)
    }

    /// Notes that a packet is delivered, so that no settle takes it again.
    fn note(&mut self, number: usize) -> Result<(), AllocError>
        ensures noted { OnOk result (Delivered self.old.noted number self.new.noted) }
        ensures same { OnOk result (self.new ≡ record self.old { noted = self.new.noted }) }
    {
        self.deliveries.note(number)
    }

    /// Packet `number` comes to whom it is for, and what is observed of it is printed.
    fn carry<W: Write>(&mut self, number: usize, writer: &mut W) -> Result<(), Failure>
        ensures happens { OnOk result (Prints (W.contents writer.old) (W.contents writer.new)
            (λ text. Happens self.old (events.Deliver number) text self.new)) }
        ensures failed { IfErr result IsRunFailure }
    {
        deliver(&mut self.run, self.alloc, number, &mut self.short, writer)
    }

    /// Packet `number`, which brings no answer, is delivered.
    fn pass_on<W: Write>(&mut self, number: usize, writer: &mut W) -> Result<(), Failure>
        ensures delivers { OnOk result (Prints (W.contents writer.old) (W.contents writer.new)
            (λ text. DeliversPacket self.old number None text self.new)) }
        ensures failed { IfErr result IsRunFailure }
    {
        self.note(number)?;
        self.carry(number, writer)
    }

    /// Packet `number`, which brings this answer, is delivered.
    fn hand_over<W: Write>(
        &mut self,
        number: usize,
        answer: &Option<Report>,
        writer: &mut W,
    ) -> Result<(), Failure>
        ensures delivers { OnOk result (Prints (W.contents writer.old) (W.contents writer.new)
            (λ text. DeliversPacket self.old number answer.now text self.new)) }
        ensures failed { IfErr result IsRunFailure }
    {
        self.pass_on(number, writer)?;
        self.tell(answer, writer)
    }

    /// The lowest packet that a settle takes, where there is one; those below it are passed over. An error is out of memory (22).
    pub fn lowest(&mut self) -> Result<Option<usize>, AllocError>
        ensures found { IfOk result (λ found. IfSome found (λ n. IsLowest self.old.cut self.old.run.stream_layer.post self.old.noted n
            × Passed self.old.noted n self.new.noted)) }
        ensures none { IfOk result (λ found. IfNone found (IsSettled self.old self.new)) }
        ensures same { OnOk result (self.new ≡ record self.old { noted = self.new.noted }) }
    {
        self.deliveries.next(self.cut.as_slice(), self.run.sent())
    }

    /// Delivers the lowest packet that a settle takes, again and again, until there is none or it has delivered the most.
    fn settle<W: Write>(&mut self, writer: &mut W) -> Result<(), Failure>
        ensures settles { OnOk result (Prints (W.contents writer.old) (W.contents writer.new)
            (λ text. Settles self.old text self.new)) }
        ensures failed { IfErr result IsRunFailure }
    {
        for _turn in 0..MOST_DELIVERIES {
            let Some(number) = self.lowest()? else {
                return Ok(());
            };
            self.deliver(number, writer)?;
        }
        Ok(())
    }
}
