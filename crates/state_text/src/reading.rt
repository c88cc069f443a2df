// The reading of a state's text.
ghost use Rattle.std.specs.Prelude.{◌≡◌, ◌<◌, ◌^◌, ◌∷◌, ◌++◌, [], ℕ, true, None, codes, IfOk, Ok};
ghost use Rattle.air_base.specs.Bounds.{LAST_CYCLE};
ghost use Rattle.state_text.specs.Parts.{is_decimal, value};
ghost use Rattle.state_text.specs.Text.{StateOf, state_text};
ghost use Rattle.state_text.specs.Bounds.{Rules, IsState, rules, is_cut, is_kept, follows};
ghost use Rattle.state_text.specs.Reading.{Gives, cycle_at, three_of, send, if_kept, over, numbers_at, bytes_at, node_at, nodes_at, send_in, send_of, sends_in, state_of, title_at};

use crate::bounds::Bounds;
use crate::cuts::is_text;
use crate::fault::StateFault;
use crate::lines::Lines;
use crate::numbers::{bytes_in, is_decimal, numbers_in, only_bytes, value};
use crate::parts::{Parts, behind_node};
use crate::state::{NodeParts, StateParts};
use air_base::Send;
use data_space::{IO_COUNT, SRAM_LEN};
use device_base::{CORE_NUMBERS, NUMBERS, PORT_NUMBERS, TIMER_NUMBERS, put_part};
use std::alloc::Global;
use world_core::{EPOCH, Topo};

#[tactic(auto, unfolding(crate::specs::Reading::title_at))]
fn title(lines: &mut Lines<'_>) -> Result<(), StateFault>
    ensures { Gives (λ x. lines.new) result (title_at lines.old) }
{
    let number = lines.number();
    if !is_text(lines.next_line()?, b"avrora state 1") {
        return Err(StateFault::NotAState { line: number });
    }
    Ok(())
}

// Whether a cycle is the end of an epoch below the limit.
fn is_cut(topo: &Topo, cycle: u64) -> bool
    ensures value { result ≡ is_cut topo.now cycle }
    ensures early { result ≡ true → cycle < LAST_CYCLE }
{
    cycle % EPOCH == 0 && cycle >= EPOCH && cycle < topo.limit()
}

#[tactic(auto, unfolding(crate::specs::Reading::cycle_at))]
fn cycle(topo: &Topo, lines: &mut Lines<'_>) -> Result<u64, StateFault>
    ensures exact { Gives (λ cycle. (cycle, lines.new)) result (cycle_at topo.now lines.old) }
    ensures early { IfOk result (λ cycle. cycle < LAST_CYCLE) }
{
    let number = lines.number();
    let mut parts = Parts::of(lines.next_line()?);
    parts.word(number, b"cycle")?;
    let numbers: [u64; 1] = numbers_in(number, parts)?;
    let cycle = numbers[0];
    if !is_cut(topo, cycle) {
        return Err(StateFault::out_of_bounds(number));
    }
    Ok(cycle)
}

// The line of a node's core, of its timers, and of its ports.
#[tactic(auto, unfolding(crate::specs::Reading::numbers_at))]
fn core<B: Bounds>(
    bounds: &B,
    node: u8,
    lines: &mut Lines<'_>,
) -> Result<[u64; CORE_NUMBERS], StateFault>
    ensures { Gives (λ core. (core, lines.new)) result (numbers_at (B.rules bounds.now).core (codes "core") node CORE_NUMBERS lines.old) }
{
    let number = lines.number();
    let parts = behind_node(number, b"core", node, lines.next_line()?)?;
    let core = numbers_in(number, parts)?;
    if !bounds.is_core(&core) {
        return Err(StateFault::out_of_bounds(number));
    }
    Ok(core)
}

#[tactic(auto, unfolding(crate::specs::Reading::numbers_at))]
fn timers<B: Bounds>(
    bounds: &B,
    node: u8,
    lines: &mut Lines<'_>,
) -> Result<[u64; TIMER_NUMBERS], StateFault>
    ensures { Gives (λ timers. (timers, lines.new)) result (numbers_at (B.rules bounds.now).timers (codes "timers") node TIMER_NUMBERS lines.old) }
{
    let number = lines.number();
    let parts = behind_node(number, b"timers", node, lines.next_line()?)?;
    let timers = numbers_in(number, parts)?;
    if !bounds.are_timers(&timers) {
        return Err(StateFault::out_of_bounds(number));
    }
    Ok(timers)
}

#[tactic(auto, unfolding(crate::specs::Reading::numbers_at))]
fn ports<B: Bounds>(
    bounds: &B,
    cycle: u64,
    core: &[u64; CORE_NUMBERS],
    node: u8,
    lines: &mut Lines<'_>,
) -> Result<[u64; PORT_NUMBERS], StateFault>
    ensures { Gives (λ ports. (ports, lines.new)) result (numbers_at ((B.rules bounds.now).ports cycle core.now) (codes "ports") node PORT_NUMBERS lines.old) }
{
    let number = lines.number();
    let parts = behind_node(number, b"ports", node, lines.next_line()?)?;
    let ports = numbers_in(number, parts)?;
    if !bounds.are_ports(cycle, core, &ports) {
        return Err(StateFault::out_of_bounds(number));
    }
    Ok(ports)
}

// The numbers of a node by those of its lines.
fn joined(
    core: &[u64; CORE_NUMBERS],
    timers: &[u64; TIMER_NUMBERS],
    ports: &[u64; PORT_NUMBERS],
) -> [u64; NUMBERS]
    ensures { result ≡ core.now ++ timers.now ++ ports.now }
{
    let mut all = [0; NUMBERS];
    put_part(&mut all, 0, core);
    put_part(&mut all, CORE_NUMBERS, timers);
    put_part(&mut all, CORE_NUMBERS + TIMER_NUMBERS, ports);
    all
}

// A line of so many bytes of a node.
#[tactic(auto, unfolding(crate::specs::Reading::bytes_at))]
fn sram(alloc: Global, node: u8, lines: &mut Lines<'_>) -> Result<Vec<u8>, StateFault>
    ensures { Gives (λ bytes. (bytes.items, lines.new)) result (bytes_at (λ bytes. true) (codes "sram") node SRAM_LEN lines.old) }
{
    let number = lines.number();
    let parts = behind_node(number, b"sram", node, lines.next_line()?)?;
    only_bytes(alloc, number, SRAM_LEN, parts)
}

#[tactic(auto, unfolding(crate::specs::Reading::bytes_at))]
fn io<B: Bounds>(
    alloc: Global,
    bounds: &B,
    node: u8,
    lines: &mut Lines<'_>,
) -> Result<Vec<u8>, StateFault>
    ensures { Gives (λ bytes. (bytes.items, lines.new)) result (bytes_at (B.rules bounds.now).io (codes "io") node IO_COUNT lines.old) }
{
    let number = lines.number();
    let parts = behind_node(number, b"io", node, lines.next_line()?)?;
    let bytes = only_bytes(alloc, number, IO_COUNT, parts)?;
    if !bounds.are_readable(&bytes) {
        return Err(StateFault::out_of_bounds(number));
    }
    Ok(bytes)
}

// The five lines of a node.
#[tactic(auto, unfolding(crate::specs::Reading::node_at))]
fn node<B: Bounds>(
    alloc: Global,
    topo: &Topo,
    bounds: &B,
    cycle: u64,
    node: u8,
    lines: &mut Lines<'_>,
) -> Result<NodeParts, StateFault>
    ensures { Gives (λ parts. (parts, lines.new)) result (node_at (rules topo.now (B.rules bounds.now)) cycle node lines.old) }
{
    let core = core(bounds, node, lines)?;
    let timers = timers(bounds, node, lines)?;
    let ports = ports(bounds, cycle, &core, node, lines)?;
    let io = io(alloc, bounds, node, lines)?;
    let sram = sram(alloc, node, lines)?;
    Ok(NodeParts {
        numbers: joined(&core, &timers, &ports),
        io,
        sram,
    })
}

// The nodes, in order.
fn nodes<B: Bounds>(
    alloc: Global,
    topo: &Topo,
    bounds: &B,
    cycle: u64,
    lines: &mut Lines<'_>,
) -> Result<Vec<NodeParts>, StateFault>
    ensures { Gives (λ nodes. (nodes.items, lines.new)) result (nodes_at (rules topo.now (B.rules bounds.now)) cycle 0 topo.now.nodes lines.old) }
{
    let mut nodes = Vec::new(alloc);
    for k in 0..topo.nodes() {
        let parts = node(alloc, topo, bounds, cycle, k, lines)?;
        nodes.push(parts)?;
    }
    Ok(nodes)
}

// Whether a send of one of the nodes, before the state's cycle, may still be heard in it.
fn is_kept(topo: &Topo, cycle: u64, send: &Send) -> bool
    requires early { cycle < LAST_CYCLE }
    ensures { result ≡ is_kept topo.now cycle send.now }
{
    send.node < topo.nodes()
        && send.cycle < cycle
        && cycle < send.cycle + topo.reach() + topo.byte_time()
}

// Whether a send may stand behind another one.
fn follows(before: Option<Send>, send: &Send) -> bool
    ensures { result ≡ follows before send.now }
{
    match before {
        None => true,
        Some(last) => {
            last.cycle < send.cycle || (last.cycle == send.cycle && last.node < send.node)
        }
    }
}

// The send of these numbers and this byte, where it keeps its bounds.
fn send_at(
    topo: &Topo,
    cycle: u64,
    before: Option<Send>,
    node: u64,
    at: u64,
    byte: u8,
) -> Option<Send>
    requires early { cycle < LAST_CYCLE }
    ensures { result ≡ if_kept topo.now cycle before (send node at (byte ∷ [])) }
{
    if node >= u64::from(topo.nodes()) {
        return None;
    }
    let send = Send {
        node: node as u8,
        cycle: at,
        byte,
    };
    if !is_kept(topo, cycle, &send) {
        return None;
    }
    if !follows(before, &send) {
        return None;
    }
    Some(send)
}

// The send of the numbers that these digits are, and of this byte, where it keeps its bounds.
fn kept_send(
    topo: &Topo,
    cycle: u64,
    before: Option<Send>,
    node: &[u8],
    at: &[u8],
    byte: u8,
) -> Option<Send>
    requires early { cycle < LAST_CYCLE }
    requires node { is_decimal node.now ≡ true }
    requires at { is_decimal at.now ≡ true }
    ensures { result ≡ if_kept topo.now cycle before (send (value node.now) (value at.now) (byte ∷ [])) }
{
    // The call's clause says that the topology is lawful, which what follows rests on.
    let _lawful = topo.nodes();
    match value(node) {
        None => None,
        Some(node) => match value(at) {
            None => None,
            Some(at) => send_at(topo, cycle, before, node, at, byte),
        },
    }
}

// The send of the parts behind a line's word.
#[tactic(auto, unfolding(crate::specs::Reading::send_in))]
fn send_in(
    alloc: Global,
    topo: &Topo,
    cycle: u64,
    before: Option<Send>,
    number: usize,
    parts: Parts<'_>,
) -> Result<Send, StateFault>
    requires early { cycle < LAST_CYCLE }
    ensures { Gives (λ send. send) result (send_in topo.now cycle before number (three_of parts.entry)) }
{
    let Some((node, at, byte)) = parts.three() else {
        return Err(StateFault::NotAState { line: number });
    };
    if !is_decimal(node) || !is_decimal(at) {
        return Err(StateFault::NotAState { line: number });
    }
    let bytes = bytes_in(alloc, number, 1, byte)?;
    match kept_send(topo, cycle, before, node, at, bytes[0]) {
        Some(send) => Ok(send),
        None => Err(StateFault::out_of_bounds(number)),
    }
}

// The send of a line.
#[tactic(auto, unfolding(crate::specs::Reading::send_of))]
fn send_of(
    alloc: Global,
    topo: &Topo,
    cycle: u64,
    before: Option<Send>,
    number: usize,
    line: &[u8],
) -> Result<Send, StateFault>
    requires early { cycle < LAST_CYCLE }
    ensures { Gives (λ send. send) result (send_of topo.now cycle before number line.now) }
{
    let mut parts = Parts::of(line);
    parts.word(number, b"send")?;
    send_in(alloc, topo, cycle, before, number, parts)
}

// The end of a text: nothing is left behind `end`.
fn over(lines: &Lines<'_>) -> Result<(), StateFault>
    ensures { Gives (λ x. []) result (over lines.now.number lines.now.pieces) }
{
    if lines.are_over() {
        return Ok(());
    }
    Err(StateFault::NotAState {
        line: lines.number(),
    })
}

// The sends up to `end`.
fn sends(
    alloc: Global,
    topo: &Topo,
    cycle: u64,
    lines: &mut Lines<'_>,
) -> Result<Vec<Send>, StateFault>
    requires early { cycle < LAST_CYCLE }
    ensures { Gives (λ sends. sends.items) result (sends_in topo.now cycle None lines.old.number lines.old.pieces) }
{
    let mut sends = Vec::new(alloc);
    let mut before = None;
    loop {
        let number = lines.number();
        let line = lines.next_line()?;
        if is_text(line, b"end") {
            over(lines)?;
            return Ok(sends);
        }
        let send = send_of(alloc, topo, cycle, before, number, line)?;
        sends.push(send)?;
        before = Some(send);
    }
}

// The state of a text, or the fault of its first faulty line.
#[tactic(auto, unfolding(crate::specs::Reading::state_of))]
fn state<B: Bounds>(
    alloc: Global,
    topo: &Topo,
    bounds: &B,
    bytes: &[u8],
) -> Result<StateParts, StateFault>
    ensures { Gives (λ state. state) result (state_of (rules topo.now (B.rules bounds.now)) bytes.now) }
{
    let mut lines = Lines::of(bytes);
    title(&mut lines)?;
    let cycle = cycle(topo, &mut lines)?;
    let nodes = nodes(alloc, topo, bounds, cycle, &mut lines)?;
    let sends = sends(alloc, topo, cycle, &mut lines)?;
    Ok(StateParts {
        cycle,
        nodes,
        sends,
    })
}

/// The state of a text, or the fault of its first faulty line.
pub fn read<B: Bounds>(
    alloc: Global,
    topo: &Topo,
    bounds: &B,
    bytes: &[u8],
) -> Result<StateParts, StateFault>
    // what is read is what would be written
    ensures found { IfOk result (λ state. IsState (rules topo.now (B.rules bounds.now)) state × (bytes.now ≡ state_text state)) }
    // what is written is read as what was written
    ensures only { (st : StateOf) → IsState (rules topo.now (B.rules bounds.now)) st → bytes.now ≡ state_text st → Gives (λ state. state) result (Ok st) }
    // every other text has exactly its fault
    ensures exact { Gives (λ state. state) result (state_of (rules topo.now (B.rules bounds.now)) bytes.now) }
{
    // The call's clause says that the topology is lawful, which what follows rests on.
    let _lawful = topo.nodes();
    state(alloc, topo, bounds, bytes)
}
