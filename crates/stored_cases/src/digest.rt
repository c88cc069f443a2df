// A number for a text.
ghost use Rattle.std.specs.Prelude.{◌≡◌, ◌<◌, ◌≤◌, length, take, None, IfOk, OnOk, OnErr};
ghost use Rattle.sim_io.specs.Outside.{Rose, extended};

use arrayvec::ArrayString;
use sim_io::{Sink, SinkFault, put_decimal};

/// Of a text how many bytes it has, and its FNV-1a hash of 64 bits: so a long one need not be written out. As a sink it
/// takes all that is written, and keeps only these.
#[derive(Clone, Copy)]
pub struct Digest {
    bytes: u64,
    hash: u64,
}

impl Digest {
    /// The digest of no bytes.
    pub fn new() -> Self {
        Digest {
            bytes: 0,
            hash: 0xCBF2_9CE4_8422_2325,
        }
    }

    /// The digest of this text.
    pub fn of(text: &[u8]) -> Self {
        let mut digest = Digest::new();
        digest.add(text);
        digest
    }

    fn add(&mut self, piece: &[u8]) {
        for byte in piece {
            self.hash = (self.hash ^ u64::from(*byte)).wrapping_mul(0x100_0000_01B3);
        }
        self.bytes = self.bytes.saturating_add(piece.len() as u64);
    }

    /// The digest as text: `N bytes HASH`, both in decimal digits.
    pub fn text(self) -> ArrayString<64> {
        let mut text = ArrayString::<64>::new();
        put_decimal(self.bytes, &mut text);
        text.push_str(" bytes ");
        put_decimal(self.hash, &mut text);
        text
    }
}

impl Sink for Digest {
    ghost taken = { λ s. None };

    ghost faults = { λ s. 0 };

    fn write(&mut self, piece: &[u8]) -> Result<usize, SinkFault> {
        self.add(piece);
        Ok(piece.len())
    }
}
