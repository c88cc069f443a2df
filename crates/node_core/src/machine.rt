// The inside of a node, and the devices' part of a cycle.
ghost use Rattle.std.specs.Prelude.{◌≡◌, ◌<◌, ◌≤◌, ◌+◌, ◌++◌, None, true, is_some, vec_len, vec_capacity};
ghost use Rattle.air_base.specs.Bounds.{LAST_CYCLE};
ghost use Rattle.node_core.specs.Cycle.{air_after, asks_after, device_rows, devices_cycle, finished_in, finished_rows, sent_rows, serial_rows};
ghost use Rattle.board_io.specs.Cycle.{sent_by};
ghost use Rattle.node_core.specs.Shown.{shown};
ghost use Rattle.serial_ports.specs.Script.{script_byte};

use crate::rows::put_row;
use crate::{Kind, NodeBus, Row};
use air_base::Heard;
use avr_base::StopCause;
use avr_program::Program;
use board_io::OnAir;
use data_space::Cpu;
use serial_ports::Script;

/// The rows that a cycle makes at most: the processor's, a frame's, and one of the radio's before and after its sample.
pub const ROWS_OF_A_CYCLE: usize = 4;

/// What a node is beside its cycle: its core, its bus with the board, the bytes that arrive, the window in which its
/// instructions are told (from `from` on, below `to`), what its last instruction left to do, and the rows that it made.
#[derive(Drop)]
pub struct Machine {
    pub number: u8,
    pub program: Program,
    pub script: Script,
    pub from: u64,
    pub to: u64,
    pub cpu: Cpu,
    pub bus: NodeBus,
    pub wait: u8,
    pub owed: bool,
    pub asleep: bool,
    pub stop: Option<StopCause>,
    pub count: u64,
    pub rows: Vec<Row>,
}

impl Machine {
    // The byte that arrives in a cycle. `quiet` only compares where none comes any more, `byte_at` divides.
    fn arrival(&self, cycle: u64) -> Option<u8>
        requires early { cycle ≤ LAST_CYCLE }
        ensures { result ≡ script_byte self.now.script cycle }
    {
        if self.script.quiet(cycle, 1) > 0 {
            None
        } else {
            self.script.byte_at(cycle)
        }
    }

    // The row of a frame that ended.
    fn put_serial(&mut self, cycle: u64, serial: Option<u8>)
        requires room { vec_len self.old.rows < vec_capacity self.old.rows }
        ensures state { shown self.new ≡ shown self.old }
        ensures rows { self.new.rows.items ≡ self.old.rows.items ++ serial_rows cycle (shown self.old) serial }
        ensures used { vec_len self.new.rows ≤ vec_len self.old.rows + 1 }
        ensures room { vec_capacity self.new.rows ≡ vec_capacity self.old.rows }
        ensures clock { self.new.bus.io.clock ≡ self.old.bus.io.clock }
    {
        if let Some(byte) = serial {
            let node = self.number;
            let kind = Kind::Serial { byte };
            put_row(&mut self.rows, Row { cycle, node, kind });
        }
    }

    // The row of a byte that was sent.
    fn put_sent(&mut self, cycle: u64, air: OnAir)
        requires room { vec_len self.old.rows < vec_capacity self.old.rows }
        ensures state { shown self.new ≡ shown self.old }
        ensures rows { self.new.rows.items ≡ self.old.rows.items ++ sent_rows cycle (shown self.old) (sent_by air) }
        ensures used { vec_len self.new.rows ≤ vec_len self.old.rows + 1 }
        ensures room { vec_capacity self.new.rows ≡ vec_capacity self.old.rows }
        ensures clock { self.new.bus.io.clock ≡ self.old.bus.io.clock }
    {
        if let OnAir::Sent { byte } = air {
            let node = self.number;
            let kind = Kind::Sent { byte };
            put_row(&mut self.rows, Row { cycle, node, kind });
        }
    }

    // The devices' part of a cycle, up to its sample.
    #[tactic(auto, unfolding(crate::specs::Cycle::devices_cycle, crate::specs::Cycle::device_rows, crate::specs::Cycle::air_after, crate::specs::Cycle::asks_after))]
    fn move_devices(&mut self, cycle: u64) -> OnAir
        requires going { self.old.stop ≡ None }
        requires now { self.old.bus.io.clock ≡ cycle }
        requires early { cycle < LAST_CYCLE }
        requires room { vec_len self.old.rows + 2 ≤ vec_capacity self.old.rows }
        ensures state { shown self.new ≡ devices_cycle cycle (shown self.old) }
        ensures rows { self.new.rows.items ≡ self.old.rows.items ++ device_rows cycle (shown self.old) }
        ensures air { result ≡ air_after cycle (shown self.old) }
        ensures waits { asks_after cycle (shown self.old) ≡ true → is_some self.new.bus.io.board.spi.shift_register ≡ true }
        ensures used { vec_len self.new.rows ≤ vec_len self.old.rows + 2 }
        ensures room { vec_capacity self.new.rows ≡ vec_capacity self.old.rows }
        ensures count { self.new.count ≡ self.old.count }
        ensures clock { self.new.bus.io.clock ≡ cycle + 1 }
    {
        let arrival = self.arrival(cycle);
        let begun = self.bus.io.begin(cycle, arrival);
        self.put_serial(cycle, begun.serial);
        self.put_sent(cycle, begun.air);
        begun.air
    }

    /// The devices' part of a cycle up to its sample, which a node that stopped in this cycle does not reach. There is
    /// room for its rows, also for that of the sample.
    #[tactic(auto, unfolding(crate::specs::Cycle::devices_cycle, crate::specs::Cycle::device_rows, crate::specs::Cycle::air_after, crate::specs::Cycle::asks_after))]
    pub fn conclude(&mut self, cycle: u64) -> OnAir
        requires now { self.old.bus.io.clock ≡ cycle }
        requires early { cycle < LAST_CYCLE }
        requires room { vec_len self.old.rows + 3 ≤ vec_capacity self.old.rows }
        ensures state { shown self.new ≡ devices_cycle cycle (shown self.old) }
        ensures rows { self.new.rows.items ≡ self.old.rows.items ++ device_rows cycle (shown self.old) }
        ensures air { result ≡ air_after cycle (shown self.old) }
        ensures waits { asks_after cycle (shown self.old) ≡ true → is_some self.new.bus.io.board.spi.shift_register ≡ true }
        ensures room { vec_len self.new.rows < vec_capacity self.new.rows }
        ensures count { self.new.count ≡ self.old.count }
        ensures stop { self.new.stop ≡ self.old.stop }
        ensures clock { self.old.stop ≡ None → self.new.bus.io.clock ≡ cycle + 1 }
    {
        if self.stop.is_some() {
            return OnAir::Quiet;
        }
        self.move_devices(cycle)
    }

    /// The rest of a cycle that samples the air, with what is heard: the Heard row, and the end of the transfer that
    /// sampled. There is room for the row.
    pub fn finish(&mut self, cycle: u64, heard: Heard)
        requires room { vec_len self.old.rows < vec_capacity self.old.rows }
        requires waits { is_some self.old.bus.io.board.spi.shift_register ≡ true }
        ensures state { shown self.new ≡ finished_in cycle (shown self.old) heard }
        ensures rows { self.new.rows.items ≡ self.old.rows.items ++ finished_rows cycle (shown self.old) heard }
        ensures count { self.new.count ≡ self.old.count }
        ensures clock { self.new.bus.io.clock ≡ self.old.bus.io.clock }
    {
        let node = self.number;
        let kind = Kind::Heard { heard };
        put_row(&mut self.rows, Row { cycle, node, kind });
        self.bus.io.answer(heard);
    }
}
