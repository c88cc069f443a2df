// One node of the fleet, in an epoch.
ghost use Rattle.std.specs.Prelude.{◌≡◌, ◌≤◌, IfErr};
ghost use Rattle.std.specs.List.{Contains};
ghost use Rattle.fleet_threads.specs.declared.member.Sampling.TheVariants.{Tries};
ghost use Rattle.fleet_threads.specs.Answers.{IsAnswered, LooksOnce};

use crate::epoch::Epoch;
use crate::gate::Gate;
use neighbour_sync::{Behind, NodeAir, SampleOutcome, Session, Shared};
use node_runner::{Event, Runner, Scenario};
use std::sync::Wait;

// The cycles of one turn of a node, at most.
const QUANTUM: u64 = 1_024;

/// A node: its runner, its part of the air, the number of its next turn, and the least number of cycles from one of its
/// sends to the next, which is the byte time.
pub struct Member {
    pub runner: Runner,
    pub air: NodeAir,
    pub turn: u64,
    pub gap: u64,
    /// Whether it wanted memory, or another node did and told it to halt.
    pub halted: bool,
}

// By hand, so that an exit that lets go of a node has one call to prove, and not one for each list in it.
impl Drop for Member {
    fn drop(self) {
        let Member {
            runner: _,
            air: _,
            turn: _,
            gap: _,
            halted: _,
        } = self;
    }
}

/// What a node does at a sample while those that it hears are behind.
#[derive(Clone, Copy)]
pub enum Sampling {
    /// It waits, as a node does that has a thread of its own.
    Waits,
    /// It lets others go on, and tries again at its next step: it looks at the halt once, and waits for no clock.
    Tries,
}

// Samples the air. `Err` where it only tries, and another node is behind.
fn ask<N: Session, R: Wait>(
    rt: &R,
    shared: &Shared<Scenario, N>,
    sampling: Sampling,
    air: &mut NodeAir,
    cycle: u64,
) -> Result<SampleOutcome, Behind>
    requires session { (air.old.table ≡ N.table) × (air.old.world ≡ N.world) }
    requires asked { Contains N.world.asks record { node = air.old.number; cycle = cycle } }
    requires floor { N.floor ≤ cycle }
    ensures answer { IsAnswered N.world air.old cycle result air.new }
    ensures once { sampling ≡ Tries → LooksOnce air.old air.new }
    ensures behind { IfErr result (λ _. sampling ≡ Tries) }
{
    match sampling {
        Sampling::Tries => air.try_sample(rt, shared, cycle),
        Sampling::Waits => Ok(air.sample_when_passed(rt, shared, cycle)),
    }
}

impl Member {
    ghost use Rattle.std.specs.Prelude.{◌≡◌, ◌≤◌, ◌+◌, true, false};
    ghost use Rattle.world_core.specs.Sends.{sends_below};
    ghost use Rattle.node_runner.specs.Place.{is_live, sends_passed};
    ghost use Rattle.fleet_threads.specs.declared.member.Sampling.TheVariants.{Tries};
    ghost use Rattle.fleet_threads.specs.Answers.{LooksOnce};
    ghost use Rattle.fleet_threads.specs.Member.{IsUnderWay, GoesOn, IsOver};
    ghost use Rattle.fleet_threads.specs.Turns.{HasGotOn, HasSampled, HasTurned};
    ghost use Rattle.neighbour_sync.specs.Seats.{node_stopped};

    /// The number of its node.
    pub fn number(&self) -> u8
        ensures { result ≡ self.now.runner.number }
    {
        self.runner.number()
    }

    /// The cycle that it has come to, and whether it waits there for the answer to a sample.
    pub fn stands(&self) -> (u64, bool)
        ensures { (result.0 ≡ self.now.runner.cycle) × (result.1 ≡ self.now.runner.asking) }
    {
        (self.runner.cycle(), self.runner.asking())
    }

    // Tells all nodes to halt, and halts.
    fn halt<N: Session, R, G>(&mut self, shared: &Shared<Scenario, N>, epoch: &Epoch<'_, R, G>)
        requires { IsUnderWay N.table N.world epoch.now.scenario.now N.floor epoch.now.end self.old }
        ensures on { IsUnderWay N.table N.world epoch.now.scenario.now N.floor epoch.now.end self.new × (self.new.runner ≡ self.old.runner) }
        ensures looks { self.new.air.halts ≡ self.old.air.halts }
        ensures exact { self.new ≡ record self.old { air = node_stopped self.old.air; halted = true } }
    {
        // Only the contract names it.
        let _ = epoch;
        self.air.halt(shared);
        self.halted = true;
    }

    // Raises the node's clock word to the runner's cycle, and to the end of the epoch where the node goes on no more
    // before that. It may stand higher already, where the node has looked ahead.
    fn raise<N: Session, R, G>(&mut self, shared: &Shared<Scenario, N>, epoch: &Epoch<'_, R, G>)
        requires { IsUnderWay N.table N.world epoch.now.scenario.now N.floor epoch.now.end self.old }
        ensures member { IsUnderWay N.table N.world epoch.now.scenario.now N.floor epoch.now.end self.new }
        ensures runner { self.new.runner ≡ self.old.runner }
        ensures halted { self.new.halted ≡ self.old.halted }
        ensures looks { self.new.air.halts ≡ self.old.air.halts }
        ensures over { is_live epoch.now.end self.old.runner ≡ false → self.new.air.clock ≡ epoch.now.end }
    {
        let reached = if self.runner.is_live(epoch.end) {
            self.runner.cycle()
        } else {
            epoch.end
        };
        let clock = reached.max(self.air.clock());
        self.air.raise(shared, clock);
    }

    // Raises the node's clock word past its last send, which is posted: for a byte time from that send's cycle on it
    // sends nothing more, so those that hear it need not wait until it gets there.
    fn look_ahead<N: Session, R, G>(
        &mut self,
        shared: &Shared<Scenario, N>,
        epoch: &Epoch<'_, R, G>,
        sent: u64,
    )
        requires member { IsUnderWay N.table N.world epoch.now.scenario.now N.floor epoch.now.end self.old }
        requires none { sends_below N.world.sends self.old.air.number (sent + self.old.gap) ≤ sends_passed self.old.runner }
        ensures on { GoesOn N.table N.world epoch.now.scenario.now N.floor epoch.now.end self.old self.new }
        ensures looks { self.new.air.halts ≡ self.old.air.halts }
        ensures runner { self.new.runner ≡ self.old.runner }
    {
        let free = sent.saturating_add(self.gap).min(epoch.end);
        let clock = free.max(self.air.clock());
        self.air.raise(shared, clock);
    }

    // Finishes the cycle in which the node samples, if it may be told what it hears; or it halts.
    fn sample<N: Session, R: Wait, G>(
        &mut self,
        shared: &Shared<Scenario, N>,
        epoch: &Epoch<'_, R, G>,
        sampling: Sampling,
    )
        requires member { IsUnderWay N.table N.world epoch.now.scenario.now N.floor epoch.now.end self.old }
        requires asking { self.old.runner.asking ≡ true }
        ensures on { GoesOn N.table N.world epoch.now.scenario.now N.floor epoch.now.end self.old self.new }
        ensures once { sampling ≡ Tries → LooksOnce self.old.air self.new.air }
        ensures sampled { self.new.halted ≡ false → HasSampled sampling self.old.runner self.new.runner }
    {
        let cycle = self.runner.cycle();
        match ask(epoch.rt, shared, sampling, &mut self.air, cycle) {
            Ok(SampleOutcome::Heard(heard)) => self.runner.answer(heard),
            Ok(SampleOutcome::Halted | SampleOutcome::NoMemory) => self.halt(shared, epoch),
            Err(_) => {}
        }
    }

    // One turn: the node runs up to its next event. What it sends is posted at once. Where memory ran out it halts.
    fn run<N: Session, R: Wait, G: Gate>(
        &mut self,
        shared: &Shared<Scenario, N>,
        epoch: &Epoch<'_, R, G>,
    )
        requires member { IsUnderWay N.table N.world epoch.now.scenario.now N.floor epoch.now.end self.old }
        requires calm { self.old.runner.asking ≡ false }
        requires live { is_live epoch.now.end self.old.runner ≡ true }
        ensures on { GoesOn N.table N.world epoch.now.scenario.now N.floor epoch.now.end self.old self.new }
        ensures looks { self.new.air.halts ≡ self.old.air.halts }
        ensures turned { self.new.halted ≡ false → HasTurned epoch.now.end self.old.runner self.new.runner }
    {
        epoch
            .gate
            .reached(epoch.rt, self.runner.number(), self.turn);
        self.turn = self.turn.saturating_add(1);
        let quantum = (epoch.end - self.runner.cycle()).min(QUANTUM);
        match self.runner.event(quantum) {
            Event::Sent { send } => {
                let number = self.runner.count();
                let sent = send.cycle;
                self.air.post(epoch.rt, shared, send, number);
                self.runner.note_posted();
                self.look_ahead(shared, epoch, sent);
            }
            Event::NoMemory => self.halt(shared, epoch),
            Event::Ask => {}
            Event::Turn { .. } => {}
            Event::Ended => {}
        }
    }

    /// One step: the node raises its clock word, and then samples or takes a turn. Where it only tries to sample, it
    /// looks once at most. Whether it is over for this epoch: the node has come to the end or stopped, or it has halted.
    /// Where it is not over and did not halt, it was answered, or made the cycles up to its next event.
    pub fn step<N: Session, R: Wait, G: Gate>(
        &mut self,
        shared: &Shared<Scenario, N>,
        epoch: &Epoch<'_, R, G>,
        sampling: Sampling,
    ) -> bool
        requires { IsUnderWay N.table N.world epoch.now.scenario.now N.floor epoch.now.end self.old }
        ensures on { GoesOn N.table N.world epoch.now.scenario.now N.floor epoch.now.end self.old self.new }
        ensures once { sampling ≡ Tries → LooksOnce self.old.air self.new.air }
        ensures over { result ≡ true → IsOver epoch.now.end self.new }
        ensures halted { self.old.halted ≡ true → result ≡ true }
        ensures gets_on { result ≡ false → self.new.halted ≡ false → HasGotOn sampling epoch.now.end self.old.runner self.new.runner }
    {
        if self.halted {
            return true;
        }
        self.raise(shared, epoch);
        if !self.runner.is_live(epoch.end) {
            return true;
        }
        if self.runner.asking() {
            self.sample(shared, epoch, sampling);
        } else {
            self.run(shared, epoch);
        }
        false
    }
}
