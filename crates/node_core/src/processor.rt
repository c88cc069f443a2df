// The processor's part of a cycle: an instruction, or the entry of an interrupt.
ghost use Rattle.std.specs.Prelude.{◌≡◌, ◌==◌, ◌<◌, ◌≤◌, ◌+◌, ◌-◌, ◌%◌, ◌++◌, ◌&&◌, ◌||◌, None, Some, true, false, vec_len, vec_capacity};
ghost use Rattle.air_base.specs.Bounds.{LAST_END};
ghost use Rattle.avr_core.specs.Execute.{is_sleep};
ghost use Rattle.node_core.specs.Cycle.{cpu_cycle, cpu_rows, entered, entered_rows, instructed, instructed_rows, is_idle, is_other, is_refused, is_sei, owes, row, row_within};
ghost use Rattle.node_core.specs.declared.row.Kind.TheVariants as kind;
ghost use Rattle.node_core.specs.Inside.{IsGoing, MayAct};
ghost use Rattle.node_core.specs.Interrupts.{due};
ghost use Rattle.node_core.specs.Pace.Midway.{IsActed};
ghost use Rattle.node_core.specs.Shown.{shown};
ghost use Rattle.board_io.specs.Board.{sleep_mode};
ghost use Rattle.board_io.specs.Lines.{lines_of};
ghost use Rattle.ihex_loader.specs.Flash.{word_at};
ghost use Rattle.avr_base.specs.Lines.{due_of, pending_of};

use crate::interrupts::enter;
use crate::machine::Machine;
use crate::rows::{is_within, put_row, tell, tell_instruction};
use crate::{Kind, Row};
use avr_base::{Sreg, StopCause, Vector};
use avr_core::execute;
use avr_decoder::Op;
use board_io::{LaggingBoard, Sleep};
use data_space::Done;

// SEI and RETI.
fn is_set_interrupts(op: &Op) -> bool
    ensures { result ≡ is_sei op.now }
{
    match op {
        Op::Bset { s } => *s == 7,
        Op::Reti => true,
        _ => false,
    }
}

fn is_sleep(op: &Op) -> bool
    ensures { result ≡ is_sleep op.now }
{
    match op {
        Op::Sleep => true,
        _ => false,
    }
}

fn is_idle(mode: Sleep) -> bool
    ensures { result ≡ is_idle mode }
{
    match mode {
        Sleep::Idle => true,
        Sleep::Off | Sleep::Other => false,
    }
}

fn is_other(mode: Sleep) -> bool
    ensures { result ≡ is_other mode }
{
    match mode {
        Sleep::Other => true,
        Sleep::Off | Sleep::Idle => false,
    }
}

// Whether an instruction is owed before the next interrupt is entered. SEI and RETI leave I set, so without it none is.
#[inline(always)]
pub fn owes(op: &Op, before: u8, after: u8) -> bool
    requires { is_sei op.now ≡ true → 128 ≤ after }
    ensures { result ≡ owes op.now before after }
{
    if after < 128 {
        return false;
    }
    before < 128 || is_set_interrupts(op)
}

// The interrupt that waits to be let in.
#[inline]
fn pending(io: &LaggingBoard) -> Option<Vector>
    ensures { result ≡ pending_of (lines_of io.now.board) }
{
    let lines = io.lines();
    if lines.bits == 0 {
        return None;
    }
    avr_base::pending(lines)
}

// The interrupt that is due, by SREG and the board.
#[inline(always)]
pub fn due(sreg: Sreg, io: &LaggingBoard) -> Option<Vector>
    ensures { result ≡ due_of sreg.bits (lines_of io.now.board) }
{
    if sreg.has(Sreg::I) { pending(io) } else { None }
}

impl Machine {
    // A stop of the instruction at an address.
    #[inline(never)]
    pub fn halt(&mut self, cycle: u64, pc: u16, cause: StopCause)
        requires room { vec_len self.old.rows < vec_capacity self.old.rows }
        ensures state { shown self.new ≡ record (shown self.old) { stop = Some cause } }
        ensures rows { self.new.rows.items ≡ self.old.rows.items ++ row cycle (shown self.old) (kind.Stop pc cause) }
        ensures room { vec_capacity self.new.rows ≡ vec_capacity self.old.rows }
        ensures clock { self.new.bus.io.clock ≡ self.old.bus.io.clock }
    {
        let node = self.number;
        let kind = Kind::Stop { pc, cause };
        put_row(&mut self.rows, Row { cycle, node, kind });
        self.stop = Some(cause);
    }

    // The row and the sleep of an instruction that was executed, which most are without: behind the window only SLEEP
    // has one of the two. The answer is that of `instruct`.
    #[inline(never)]
    fn end_instruction(&mut self, cycle: u64, pc: u16, done: Done) -> u8
        requires room { vec_len self.old.rows < vec_capacity self.old.rows }
        requires awake { self.old.asleep ≡ false }
        ensures state { shown self.new ≡ record (shown self.old) { asleep = done.sleep && is_idle (sleep_mode self.old.bus.io.board) } }
        ensures rows { self.new.rows.items ≡ self.old.rows.items ++ row_within cycle (shown self.old) (kind.Instr pc (word_at self.old.program.bytes pc) (word_at self.old.program.bytes ((pc + 1) % 65536))) }
        ensures awake { 0 < result → self.new.asleep ≡ false }
        ensures cycles { 0 < result → result ≡ done.cycles }
        ensures room { vec_capacity self.new.rows ≡ vec_capacity self.old.rows }
        ensures wait { self.new.wait ≡ self.old.wait }
        ensures stop { self.new.stop ≡ self.old.stop }
        ensures clock { self.new.bus.io.clock ≡ self.old.bus.io.clock }
    {
        let told = is_within(self.from, self.to, cycle);
        tell_instruction(&mut self.rows, told, &self.program, pc, cycle, self.number);
        if done.sleep && is_idle(self.bus.io.sleep_mode()) {
            self.asleep = true;
            return 0;
        }
        done.cycles
    }

    // What is left of the first cycle of an instruction that did not stop, by whether another is owed. The answer is
    // that of `instruct`.
    #[inline(always)]
    fn end(&mut self, cycle: u64, pc: u16, owed: bool, done: Done) -> u8
        requires going { self.old.stop ≡ None }
        requires awake { self.old.asleep ≡ false }
        requires few { self.old.count ≤ LAST_END }
        requires takes { 1 ≤ done.cycles }
        requires room { vec_len self.old.rows < vec_capacity self.old.rows }
        ensures state { shown self.new ≡ record (shown self.old) { wait = done.cycles - 1; owed = owed; asleep = done.sleep && is_idle (sleep_mode self.old.bus.io.board); count = self.old.count + 1 } }
        ensures rows { self.new.rows.items ≡ self.old.rows.items ++ row_within cycle (shown self.old) (kind.Instr pc (word_at self.old.program.bytes pc) (word_at self.old.program.bytes ((pc + 1) % 65536))) }
        ensures going { 0 < result → IsGoing result (shown self.new) }
        ensures room { vec_capacity self.new.rows ≡ vec_capacity self.old.rows }
        ensures clock { self.new.bus.io.clock ≡ self.old.bus.io.clock }
    {
        self.wait = done.cycles - 1;
        self.owed = owed;
        self.count += 1;
        if done.sleep || cycle < self.to {
            return self.end_instruction(cycle, pc, done);
        }
        done.cycles
    }

    // Whether an instruction is SLEEP in a mode other than idle.
    fn refuses(&self, op: &Op) -> bool
        ensures { result ≡ is_refused (shown self.now) op.now }
    {
        is_sleep(op) && is_other(self.bus.io.sleep_mode())
    }

    // The first cycle of an instruction: how many it takes, or 0 where the node stopped or fell asleep.
    #[inline(always)]
    fn instruct(&mut self, cycle: u64) -> u8
        requires { MayAct cycle self.old }
        ensures { IsActed result (instructed cycle (shown self.old)) (instructed_rows cycle (shown self.old)) self.old self.new }
    {
        let pc = self.cpu.pc;
        let op = self.program.op(pc);
        if self.refuses(&op) {
            self.halt(cycle, pc, StopCause::SleepMode);
            return 0;
        }
        let before = self.cpu.sreg.bits;
        match execute(&op, &self.program, &mut self.cpu, &mut self.bus) {
            Ok(done) => {
                let owed = owes(&op, before, self.cpu.sreg.bits);
                self.end(cycle, pc, owed, done)
            }
            Err(cause) => {
                self.halt(cycle, pc, cause);
                0
            }
        }
    }

    // The first cycle of an interrupt, of which so many cycles more follow: how many it takes, or 0 where the node
    // stopped.
    fn enter(&mut self, cycle: u64, wait: u8, vector: Vector) -> u8
        requires short { wait ≤ 7 }
        requires going { self.old.stop ≡ None }
        requires now { self.old.bus.io.clock ≡ cycle }
        requires room { vec_len self.old.rows < vec_capacity self.old.rows }
        ensures { IsActed result (entered cycle wait vector (shown self.old)) (entered_rows cycle vector (shown self.old)) self.old self.new }
    {
        let back = self.cpu.pc;
        let node = self.number;
        match enter(vector, &mut self.cpu, &mut self.bus) {
            Ok(()) => {
                self.bus.io.entered(vector);
                let told = is_within(self.from, self.to, cycle);
                let kind = Kind::Enter {
                    vector: vector.word,
                    back,
                };
                tell(&mut self.rows, told, Row { cycle, node, kind });
                self.wait = wait;
                self.asleep = false;
                wait + 1
            }
            Err(cause) => {
                self.halt(cycle, back, cause);
                0
            }
        }
    }

    // The interrupt that is due.
    #[inline(always)]
    pub fn due(&self) -> Option<Vector>
        ensures { result ≡ due (shown self.now) }
    {
        due(self.cpu.sreg, &self.bus.io)
    }

    // The processor's part of a cycle in which it neither waits nor sleeps: how many cycles its instruction or its
    // entry takes, or 0 where the node stopped or fell asleep.
    #[inline(never)]
    pub fn act(&mut self, cycle: u64) -> u8
        requires { MayAct cycle self.old }
        ensures { IsActed result (cpu_cycle cycle (shown self.old)) (cpu_rows cycle (shown self.old)) self.old self.new }
    {
        if let Some(vector) = self.due() {
            if !self.owed {
                return self.enter(cycle, 3, vector);
            }
        }
        self.instruct(cycle)
    }

    // The processor's part of a cycle in which it waits or sleeps. Only what is due wakes it.
    #[tactic(auto, unfolding(crate::specs::Cycle::cpu_cycle, crate::specs::Cycle::cpu_rows))]
    pub fn idle(&mut self, cycle: u64)
        requires now { self.old.bus.io.clock ≡ cycle }
        requires going { self.old.stop ≡ None }
        requires rests { self.old.wait ≡ 0 → self.old.asleep ≡ true }
        requires room { vec_len self.old.rows < vec_capacity self.old.rows }
        ensures state { shown self.new ≡ cpu_cycle cycle (shown self.old) }
        ensures rows { self.new.rows.items ≡ self.old.rows.items ++ cpu_rows cycle (shown self.old) }
        ensures room { vec_capacity self.new.rows ≡ vec_capacity self.old.rows }
        ensures clock { self.new.bus.io.clock ≡ self.old.bus.io.clock }
    {
        if self.wait > 0 {
            self.wait -= 1;
            return;
        }
        if let Some(vector) = self.due() {
            self.enter(cycle, 7, vector);
        }
    }
}
