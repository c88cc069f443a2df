// The data space of a node beside the core.
ghost use Rattle.std.specs.Prelude.{◌≡◌, ◌≤◌, true, false, Ok, Err, OnOk, IfOk, OnErr, IfErr};
ghost use Rattle.air_base.specs.declared.bounds.TheConstants.{LONGEST_BYTE};
ghost use Rattle.avr_core.specs.Execute.{in_sram};
ghost use Rattle.board_io.specs.Board.{clocked, reset_board};
ghost use Rattle.data_space.specs.Memory.{zeros};
ghost use Rattle.data_space.specs.declared.regions.TheConstants.{SRAM_LEN};
ghost use Rattle.node_core.specs.Pace.Leaps.{LoadsStill};

use avr_base::{NoMemory, StopCause};
use avr_core::is_in_sram;
use board_io::LaggingBoard;
use data_space::{Bus, SRAM_LAST, SRAM_START, Sram};
use std::alloc::Global;

/// What a node holds beside the core (ATmega128 datasheet, "SRAM Data Memory"): the internal SRAM at data addresses
/// 0x0100 to 0x10FF, and below it the I/O registers with their devices. An address above the SRAM is the stop
/// `address past 0x10FF`.
#[derive(Drop)]
pub struct NodeBus {
    /// The I/O registers and the devices. They stand before the SRAM, whose address is then not that of the whole, which is
    /// passed to calls: so the host looks up a byte of it at once.
    pub io: LaggingBoard,
    /// The internal SRAM.
    pub sram: Sram,
}

impl NodeBus {
    ghost use Rattle.node_core.specs.Bus.{bus_get, bus_put};

    // A load beside the SRAM, in a call of its own: then what is inlined into each instruction is small.
    #[inline(never)]
    #[tactic(auto, unfolding(crate::specs::Bus::bus_get))]
    fn get_beside(&mut self, at: u16) -> Result<u8, StopCause>
        requires { in_sram at ≡ false }
        ensures ok { IfOk result (λ byte. bus_get self.old at ≡ Ok (byte, self.new)) }
        ensures err { IfErr result (λ cause. bus_get self.old at ≡ Err cause) }
        ensures same { OnErr result (self.new ≡ self.old) }
    {
        if at > SRAM_LAST {
            return Err(StopCause::PastMemory);
        }
        self.io.get(at)
    }

    // A store beside the SRAM.
    #[inline(never)]
    #[tactic(auto, unfolding(crate::specs::Bus::bus_put))]
    fn put_beside(&mut self, at: u16, b: u8) -> Result<(), StopCause>
        requires { in_sram at ≡ false }
        ensures ok { OnOk result (bus_put self.old at b ≡ Ok self.new) }
        ensures err { IfErr result (λ cause. bus_put self.old at b ≡ Err cause) }
        ensures same { OnErr result (self.new ≡ self.old) }
    {
        if at > SRAM_LAST {
            return Err(StopCause::PastMemory);
        }
        self.io.put(at, b)
    }

    /// The data space after reset, with the byte time of its radio in cycles, at most 4,096. `Err` only for want of
    /// memory.
    pub fn new(alloc: Global, byte_time: u64) -> Result<Self, NoMemory>
        requires { byte_time ≤ LONGEST_BYTE }
        ensures { IfOk result (λ bus. bus ≡ record { io = clocked 0 (reset_board byte_time); sram = zeros SRAM_LEN }) }
    {
        let sram = Sram::new(alloc)?;
        Ok(NodeBus {
            sram,
            io: LaggingBoard::new(byte_time),
        })
    }

    /// Whether a load at a data address that is not the core's changes nothing, and gives the same byte in each cycle
    /// before the next event.
    pub fn reads_still(&self, at: u16) -> bool
        ensures { result ≡ true → LoadsStill self.now at }
    {
        if at > SRAM_LAST {
            return false;
        }
        at >= SRAM_START || self.io.reads_still(at)
    }
}

impl Bus for NodeBus {
    ghost use Rattle.node_core.specs.Bus.{bus_get, bus_put};

    ghost get_gives = { bus_get };

    ghost put_gives = { bus_put };

    #[inline]
    #[tactic(auto, unfolding(crate::specs::Bus::bus_get))]
    fn get(&mut self, at: u16) -> Result<u8, StopCause> {
        if is_in_sram(at) {
            return Ok(self.sram.get(at));
        }
        self.get_beside(at)
    }

    #[inline]
    #[tactic(auto, unfolding(crate::specs::Bus::bus_put))]
    fn put(&mut self, at: u16, b: u8) -> Result<(), StopCause> {
        if is_in_sram(at) {
            self.sram.put(at, b);
            return Ok(());
        }
        self.put_beside(at, b)
    }
}
