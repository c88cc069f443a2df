// Who is told of the nodes' turns.
use std::sync::Wait;

/// Is told of each turn of a node before it begins, and may hold the node there; and may refuse a node its thread. It
/// promises nothing, and no row depends on it.
pub trait Gate {
    /// Node `node` is about to begin its turn number `turn`, counted from 0 through the whole run.
    fn reached<R: Wait>(&self, rt: &R, node: u8, turn: u64);

    /// Whether no thread is to be found for node `node`, where one is to be begun for it: as where the system refuses it.
    fn refuses(&self, node: u8) -> bool {
        let _ = node;
        false
    }
}

/// Holds nobody, and refuses nothing.
#[derive(Clone, Copy)]
pub struct OpenGate;

impl Gate for OpenGate {
    fn reached<R: Wait>(&self, rt: &R, node: u8, turn: u64) {
        // It holds no node, whichever it is.
        let _ = rt;
        let _ = node;
        let _ = turn;
    }
}
