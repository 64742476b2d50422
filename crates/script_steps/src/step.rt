//! Steps, and how they are kept as a script runs.
ghost use Rattle.std.specs.Prelude.{◌≡◌, ◌++◌, ◌∷◌, ◌-◌, [], IfErr, IfOk, OnOk, length};
ghost use Rattle.model_partition.specs.Cluster.{first_cluster};
ghost use Rattle.script_run.specs.Failures.{IsRunFailure};
ghost use Rattle.script_run.specs.Playing.{IsFresh, Plays};
ghost use Rattle.script_steps.specs.Steps.{Adds, AddsOne, IsSingle, IsStep, IsWithin, StepBegins, StepDelivers, StepsOf, StepsSettle, act_of, between, post_of};
ghost use Rattle.world.specs.Cluster.{ClusterMirrors, IsRun};

use crate::act::{Act, act_of};
use script_lines::Line;
use script_run::{Failure, MOST_DELIVERIES, Session};
use std::alloc::Global;
use std::marker::Model;
use wire::Packet;
use world::Setup;

/// One step of a script.
#[derive(Drop)]
pub struct Step {
    /// Which line of the script it is of, from 0; the setup and empty lines are not counted.
    pub line: usize,
    /// What it does.
    pub act: Act,
    /// The number of the first packet that it sent.
    pub first: usize,
    /// The number after the last packet that it sent.
    pub end: usize,
    /// What `run` prints of it: whole lines, each with its newline.
    pub printed: Vec<u8>,
}

/// The steps of a script, and all packets that were sent.
#[derive(Drop)]
pub struct Steps {
    alloc: Global,
    session: Session,
    steps: Vec<Step>,
}

impl Model for Steps {
    ghost use Rattle.script_steps.specs.Steps.{StepsKept};

    ghost Value = { StepsKept };

    ghost view = { λ s. record { session = s.session; steps = s.steps.items } };
}

impl Steps {
    /// A stamp of this setup, and no step yet. An error is out of memory (22).
    pub(crate) fn start(alloc: Global, setup: &Setup) -> Result<Steps, Failure>
        ensures fresh { IfOk result (λ x. IsFresh x.session) }
        ensures mirrors { IfOk result (λ x. ClusterMirrors x.session.run
            (first_cluster setup.now.nodes setup.now.servers setup.now.target setup.now.batch)) }
        ensures none { IfOk result (λ x. x.steps ≡ []) }
        ensures failed { IfErr result IsRunFailure }
    {
        Ok(Steps {
            alloc,
            session: Session::start(alloc, setup)?,
            steps: Vec::new(alloc),
        })
    }

    /// The steps, in order.
    pub fn steps(&self) -> &[Step]
        ensures { result.now ≡ self.now.steps }
    {
        self.steps.as_slice()
    }

    /// All packets that were sent: their places, from 0, are their numbers.
    pub fn sent(&self) -> &[Packet]
        ensures sent { result.now ≡ post_of self.now.session }
        ensures led { IsRun self.now.session.run }
    {
        self.session.sent()
    }

    /// The packets that a step sent; none where its numbers are not of packets that were sent, as in a step of another script.
    pub fn sent_by(&self, step: &Step) -> &[Packet]
        ensures sent { IsWithin (post_of self.now.session) step.now
            → result.now ≡ between (post_of self.now.session) step.now.first step.now.end }
        ensures none { (IsWithin (post_of self.now.session) step.now → ⊥) → result.now ≡ [] }
    {
        self.sent().get(step.first..step.end).unwrap_or(&[])
    }

    /// Keeps a step that ends here, and began when so many packets were sent.
    fn push(&mut self, line: usize, act: Act, first: usize, printed: Vec<u8>) -> Result<(), Failure>
        ensures kept { OnOk result (self.new ≡ record self.old {
          steps = self.old.steps
              ++ record { line = line; act = act; first = first; end = length (post_of self.old.session); printed = printed } ∷ [];
        }) }
        ensures failed { IfErr result IsRunFailure }
    {
        let end = self.session.sent().len();
        self.steps.push(Step {
            line,
            act,
            first,
            end,
            printed,
        })?;
        Ok(())
    }

    /// Plays a line that is one step.
    fn play_one(&mut self, place: usize, line: Line) -> Result<(), Failure>
        requires { IsSingle line }
        ensures added { OnOk result (AddsOne self.old self.new (λ step. IsStep place (act_of line) self.old.session step self.new.session
            × Plays self.old.session line step.printed self.new.session)) }
        ensures failed { IfErr result IsRunFailure }
    {
        let first = self.session.sent().len();
        let act = act_of(&line);
        let mut printed = Vec::new(self.alloc);
        self.session.play(line, &mut printed)?;
        self.push(place, act, first, printed)
    }

    /// Delivers a packet for the line at this place.
    fn deliver(&mut self, place: usize, number: usize) -> Result<(), Failure>
        ensures added { OnOk result (AddsOne self.old self.new (λ step. StepDelivers place number self.old.session step self.new.session)) }
        ensures failed { IfErr result IsRunFailure }
    {
        let first = self.session.sent().len();
        let mut printed = Vec::new(self.alloc);
        self.session.deliver(number, &mut printed)?;
        self.push(place, Act::Deliver { number }, first, printed)
    }

    /// Begins a line that makes deliveries.
    fn begin(&mut self, place: usize) -> Result<(), Failure>
        ensures added { OnOk result (AddsOne self.old self.new (λ step. StepBegins place self.old.session step self.new.session)) }
        ensures failed { IfErr result IsRunFailure }
    {
        let first = self.session.sent().len();
        self.push(place, Act::Deliveries, first, Vec::new(self.alloc))
    }

    /// Delivers the packet that was sent last.
    fn deliver_last(&mut self, place: usize) -> Result<(), Failure>
        ensures added { OnOk result (AddsOne self.old self.new (λ step. StepDelivers place (length (post_of self.old.session) - 1)
            self.old.session step self.new.session)) }
        ensures failed { IfErr result IsRunFailure }
    {
        let last = self.session.sent().len().saturating_sub(1);
        self.deliver(place, last)
    }

    /// Delivers the lowest packet that a settle takes, again and again, until there is none or it has delivered the most.
    fn settle(&mut self, place: usize) -> Result<(), Failure>
        ensures added { OnOk result (Adds self.old self.new (λ more. StepsSettle place self.old.session more self.new.session)) }
        ensures failed { IfErr result IsRunFailure }
    {
        for _turn in 0..MOST_DELIVERIES {
            let Some(number) = self.session.lowest()? else {
                return Ok(());
            };
            self.deliver(place, number)?;
        }
        Ok(())
    }

    /// Plays the line at this place, and keeps its steps. An error is out of memory (22).
    pub(crate) fn play(&mut self, place: usize, line: Line) -> Result<(), Failure>
        ensures added { OnOk result (Adds self.old self.new (λ more. StepsOf place line self.old.session more self.new.session)) }
        ensures failed { IfErr result IsRunFailure }
    {
        match line {
            Line::Settle => {
                self.begin(place)?;
                self.settle(place)
            }
            Line::DeliverLast => {
                self.begin(place)?;
                self.deliver_last(place)
            }
            line => self.play_one(place, line),
        }
    }
}
