// One cycle of the devices.
ghost use Rattle.std.specs.Prelude.{◌≡◌, ◌≤◌, true, is_some};
ghost use Rattle.air_base.specs.Bounds.{LAST_END};
ghost use Rattle.serial_ports.specs.Usart.{frame_ended};
ghost use Rattle.avr_timers.specs.Timer16 as timer16;
ghost use Rattle.avr_timers.specs.Timer8 as timer8;

use crate::Board;
use air_base::Heard;
use avr_timers::{Timer8, Timer16};
use serial_ports::{TransferOutcome, ended_byte};

/// What the radio of a node does on the air in a cycle.
#[derive(Clone, Copy)]
pub enum OnAir {
    /// Nothing.
    Quiet,
    /// It sends a byte.
    Sent {
        /// What is sent.
        byte: u8,
    },
    /// It samples the air: the cycle waits for what is heard.
    Asks,
}

/// What the devices did in a cycle.
#[derive(Clone, Copy)]
pub struct CycleOutput {
    /// The byte of the frame of USART0 that ended in it.
    pub serial: Option<u8>,
    /// What the radio did.
    pub air: OnAir,
}

impl CycleOutput {
    /// Nothing.
    pub const NOTHING: CycleOutput = CycleOutput {
        serial: None,
        air: OnAir::Quiet,
    };
}

// A cycle of a timer. Most are halted: one test.
#[inline(always)]
#[tactic(auto, using(crate::proofs::Halted::halted_8))]
fn tick_8(timer: &mut Timer8, cycle: u64)
    requires { cycle ≤ LAST_END }
    ensures { timer.new ≡ timer8.timer_cycle cycle timer.old }
{
    if timer.select != 0 {
        timer.tick(cycle);
    }
}

// A cycle of a timer of sixteen bits.
#[inline(always)]
#[tactic(auto, using(crate::proofs::Halted::halted_16))]
fn tick_16(timer: &mut Timer16, cycle: u64)
    requires { cycle ≤ LAST_END }
    ensures { timer.new ≡ timer16.timer_cycle cycle timer.old }
{
    if timer.select != 0 {
        timer.tick(cycle);
    }
}

impl Board {
    ghost use Rattle.board_io.specs.Cycle.{air_by, air_of, board_air, board_answered, board_begun, board_serial, is_asks, ports_begun, moved, timers_cycle, transfer_end, usart_cycle, with_moved};

    // The timers' part of a cycle.
    fn tick_timers(&mut self, cycle: u64)
        requires { cycle ≤ LAST_END }
        ensures { self.new ≡ timers_cycle cycle self.old }
    {
        tick_8(&mut self.t0, cycle);
        tick_16(&mut self.t1, cycle);
        tick_8(&mut self.t2, cycle);
        tick_16(&mut self.t3, cycle);
    }

    // The part of USART0: a byte that arrives, and then the transmitter, with the byte whose frame ends.
    fn tick_usart(&mut self, cycle: u64, arrival: Option<u8>) -> Option<u8>
        requires { cycle ≤ LAST_END }
        ensures state { self.new ≡ usart_cycle cycle arrival self.old }
        ensures ended { result ≡ frame_ended cycle self.old.usart }
    {
        match arrival {
            None => self.usart.tick(cycle),
            Some(byte) => {
                self.usart.arrive(byte);
                self.usart.tick(cycle)
            }
        }
    }

    // The end of a transfer, by what the radio, which has it already, makes of its byte.
    fn end_transfer(&mut self, moved: TransferOutcome) -> OnAir
        requires { is_some self.old.spi.shift_register ≡ true }
        ensures state { self.new ≡ transfer_end moved self.old.radio self.old }
        ensures air { result ≡ air_by moved }
        ensures waits { is_asks result ≡ true → is_some self.new.spi.shift_register ≡ true }
    {
        match moved {
            TransferOutcome::Answer(miso) => {
                self.spi.finish(miso);
                OnAir::Quiet
            }
            TransferOutcome::Send { byte, miso } => {
                self.spi.finish(miso);
                OnAir::Sent { byte }
            }
            TransferOutcome::Ask => OnAir::Asks,
        }
    }

    // The part of the serial peripheral interface and the radio, up to a sample.
    fn exchange(&mut self, cycle: u64) -> OnAir
        requires { cycle ≤ LAST_END }
        ensures state { self.new ≡ with_moved (moved cycle self.old) self.old }
        ensures air { result ≡ air_of (moved cycle self.old) }
        ensures waits { is_asks result ≡ true → is_some self.new.spi.shift_register ≡ true }
    {
        match ended_byte(self.spi.shift_register, cycle) {
            None => OnAir::Quiet,
            Some(byte) => {
                let selected = self.selected();
                let moved = self.radio.transfer(cycle, selected, byte);
                self.end_transfer(moved)
            }
        }
    }

    /// The part of USART0, with the byte that arrives, and of the serial peripheral interface and the radio in the
    /// cycle `cycle`, which follows that of the timers. It looks at no timer.
    #[inline(always)]
    #[tactic(auto, unfolding(crate::specs::Cycle::ports_begun, crate::specs::Cycle::board_serial, crate::specs::Cycle::board_air))]
    pub fn begin_ports(&mut self, cycle: u64, arrival: Option<u8>) -> CycleOutput
        requires { cycle ≤ LAST_END }
        ensures state { self.new ≡ ports_begun cycle arrival self.old }
        ensures serial { result.serial ≡ board_serial cycle self.old }
        ensures air { result.air ≡ board_air cycle self.old }
        ensures waits { is_asks result.air ≡ true → is_some self.new.spi.shift_register ≡ true }
    {
        let serial = self.tick_usart(cycle, arrival);
        let air = self.exchange(cycle);
        CycleOutput { serial, air }
    }

    /// The devices' part of the cycle `cycle`: the timers, then USART0 with the byte that arrives, then the serial
    /// peripheral interface and the radio. Where the radio samples the air the cycle is left there, and `answer`, with
    /// what is heard, does the rest.
    #[tactic(auto, using(crate::proofs::Ports::begun_ports, crate::proofs::Ports::serial_ports, crate::proofs::Ports::air_ports))]
    pub fn begin(&mut self, cycle: u64, arrival: Option<u8>) -> CycleOutput
        requires { cycle ≤ LAST_END }
        ensures state { self.new ≡ board_begun cycle arrival self.old }
        ensures serial { result.serial ≡ board_serial cycle self.old }
        ensures air { result.air ≡ board_air cycle self.old }
        ensures waits { is_asks result.air ≡ true → is_some self.new.spi.shift_register ≡ true }
    {
        self.tick_timers(cycle);
        self.begin_ports(cycle, arrival)
    }

    /// The rest of a cycle that samples, with what is heard: the transfer that sampled ends, and answers 0.
    #[tactic(auto, unfolding(crate::specs::Cycle::board_answered))]
    pub fn answer(&mut self, h: Heard)
        requires { is_some self.old.spi.shift_register ≡ true }
        ensures { self.new ≡ board_answered h self.old }
    {
        let miso = self.radio.answer(h);
        self.spi.finish(miso);
    }
}
