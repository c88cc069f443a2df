// A frame, and what bytes it has.
use air_base::Send;
use arrayvec::ArrayVec;
use std::marker::Model;

/// The most bytes of a payload.
pub const MOST_PAYLOAD: usize = 32;

/// The payload of a frame: its bytes.
#[derive(Drop)]
pub struct Payload {
    bytes: ArrayVec<u8, MOST_PAYLOAD>,
}

impl Model for Payload {
    ghost use Rattle.std.specs.Prelude.{ℕ, List};

    ghost Value = { List ℕ };

    ghost view = { λ p. p.bytes.items };
}

impl Payload {
    ghost use Rattle.std.specs.Prelude.{◌≡◌, ◌≤◌, length, map};
    ghost use Rattle.air_sniffer.specs.declared.frame.TheConstants.{MOST_PAYLOAD};

    /// The bytes that these sends carry.
    pub(crate) fn of(sends: &[Send]) -> Payload
        requires { length sends.now ≤ MOST_PAYLOAD }
        ensures { result ≡ map (λ x. x.byte) sends.now }
    {
        let mut bytes = ArrayVec::new();
        for send in sends {
            bytes.push(send.byte);
        }
        Payload { bytes }
    }

    /// The bytes, in the order in which they were sent.
    pub fn bytes(&self) -> &[u8]
        ensures { result.now ≡ self.now }
    {
        &self.bytes
    }
}

/// A frame that a node sent.
#[derive(Drop)]
pub struct Frame {
    /// The number of the node that sent it.
    pub node: u8,
    /// The cycle of its first byte.
    pub cycle: u64,
    /// The bytes behind its head.
    pub payload: Payload,
}
