// The rows of a trace.
use air_base::Heard;
use avr_base::StopCause;

/// How a node stands when a run is over.
#[derive(Clone, Copy)]
pub enum NodeEnd {
    /// It is running.
    Running,
    /// It sleeps, and would wake at an interrupt.
    Asleep,
    /// It stopped; its Stop row says why.
    Stopped,
}

/// What a row tells. Program addresses are word addresses.
#[derive(Clone, Copy)]
pub enum Kind {
    /// An instruction was executed: its address, its opcode word, and the word after it.
    Instr { pc: u16, word: u16, next: u16 },
    /// An interrupt was entered: its vector, and the address to return to.
    Enter { vector: u16, back: u16 },
    /// A frame of USART0 ended: its byte.
    Serial { byte: u8 },
    /// The radio sent a byte.
    Sent { byte: u8 },
    /// The radio sampled the air: what it heard.
    Heard { heard: Heard },
    /// The node stopped: the address of the instruction, and why.
    Stop { pc: u16, cause: StopCause },
    /// The last row of a node: how it stands, and how many instructions it executed.
    End { state: NodeEnd, instructions: u64 },
}

/// One row: 32 bytes.
#[derive(Clone, Copy)]
pub struct Row {
    /// The cycle in which it happened, from 0; of an End row the cycle limit.
    pub cycle: u64,
    /// The number of the node, from 0.
    pub node: u8,
    /// What happened.
    pub kind: Kind,
}
