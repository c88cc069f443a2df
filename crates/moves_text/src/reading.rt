// The reading of a sweep's moves.
ghost use Rattle.std.specs.Prelude.{◌≡◌, ◌<◌, IfOk};
ghost use Rattle.std.specs.List.{All};
ghost use Rattle.state_text.specs.Parts.{parts_of, pieces_of};
ghost use Rattle.moves_text.specs.Moves.{move_of, moves_from, moves_in, script_in, stretches_in, whole_room};
ghost use Rattle.moves_text.specs.Reading.{Gives};

use crate::fault::{LineFault, MovesFault};
use crate::moves::Move;
use crate::room::Room;
use crate::words::{next_stretch, number_in};
use serial_ports::{MOST_ARRIVALS, Script, Stretch};
use state_text::{Parts, cut};
use std::alloc::Global;

// The stretches of the words that are left in a line.
fn stretches_in(
    alloc: Global,
    line: usize,
    mut words: Parts<'_>,
) -> Result<Vec<Stretch>, MovesFault>
    ensures { Gives (λ stretches. stretches.items) result (stretches_in line whole_room words.entry) }
{
    let mut stretches = Vec::new(alloc);
    let mut room = Room {
        from: 0,
        bytes: MOST_ARRIVALS,
    };
    loop {
        let Some((stretch, behind)) = next_stretch(alloc, line, room, &mut words)? else {
            return Ok(stretches);
        };
        stretches.push(stretch)?;
        room = behind;
    }
}

// What arrives by the words behind the node of a line.
#[tactic(auto, unfolding(crate::specs::Moves::script_in))]
fn script_in(alloc: Global, line: usize, words: Parts<'_>) -> Result<Script, MovesFault>
    ensures { Gives (λ script. script) result (script_in line words.entry) }
{
    if words.again().next().is_none() {
        return Err(LineFault::BadLine.at(line));
    }
    let stretches = stretches_in(alloc, line, words)?;
    Ok(Script::of(stretches))
}

// The move of a line.
#[tactic(auto, unfolding(crate::specs::Moves::move_of))]
fn move_of(alloc: Global, nodes: u8, line: usize, text: &[u8]) -> Result<Move, MovesFault>
    ensures exact { Gives (λ m. m) result (move_of nodes line (parts_of text.now)) }
    ensures known { IfOk result (λ m. m.node < nodes) }
{
    let mut words = Parts::of(text);
    let Some(word) = words.next() else {
        return Err(LineFault::BadLine.at(line));
    };
    let node = number_in(line, LineFault::NoNode, 0, u64::from(nodes), word)?;
    let script = script_in(alloc, line, words)?;
    Ok(Move {
        node: node as u8,
        script,
    })
}

// The moves of all lines.
fn moves_of(alloc: Global, nodes: u8, text: &[u8]) -> Result<Vec<Move>, MovesFault>
    ensures exact { Gives (λ moves. moves.items) result (moves_from nodes 1 (pieces_of text.now)) }
    ensures known { IfOk result (λ moves. All (λ m. m.node < nodes) moves.items) }
{
    let mut moves = Vec::new(alloc);
    let mut line = 1;
    let mut rest = text;
    while !rest.is_empty() {
        let Some((words, behind)) = cut(b'\n', rest) else {
            return Err(LineFault::BadLine.at(line));
        };
        let one = move_of(alloc, nodes, line, words)?;
        moves.push(one)?;
        line += 1;
        rest = behind;
    }
    Ok(moves)
}

/// The moves that a text says for a network of so many nodes, or its first fault.
#[tactic(auto, unfolding(crate::specs::Moves::moves_in))]
pub fn read(alloc: Global, nodes: u8, text: &[u8]) -> Result<Vec<Move>, MovesFault>
    ensures exact { Gives (λ moves. moves.items) result (moves_in nodes text.now) }
    ensures known { IfOk result (λ moves. All (λ m. m.node < nodes) moves.items) }
{
    if text.is_empty() {
        return Err(MovesFault::Empty);
    }
    moves_of(alloc, nodes, text)
}
