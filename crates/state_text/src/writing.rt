// The writing of a state's text.
ghost use Rattle.std.specs.Prelude.{◌≡◌, ◌<◌, ◌≤◌, codes, decimal, length, OnErr, OnOk};
ghost use Rattle.std.specs.List.{AllByRecursion, flat_map};
ghost use Rattle.hex.specs.Hex.{encode_upper};
ghost use Rattle.sim_io.specs.Outside.{Rose, TookFront, extended};
ghost use Rattle.state_text.specs.Parts.{ended};
ghost use Rattle.state_text.specs.Text.{bytes_line, node_lines, nodes_lines, numbers_line, send_line, state_text};
ghost use Rattle.state_text.specs.Writing.{IsPut, IsSized, head, node_of, numbers_text, out, spaced};

use crate::nodes::Nodes;
use crate::page::Page;
use air_base::Send;
use data_space::{IO_COUNT, SRAM_LEN};
use device_base::{CORE_NUMBERS, NUMBERS, TIMER_NUMBERS};
use sim_io::{Sink, SinkFault, write_all};

// Appends numbers, each behind a space.
fn put_numbers<O: Sink>(numbers: &[u64], page: &mut Page, sink: &mut O)
    ensures { IsPut (flat_map (λ n. spaced (decimal n)) numbers.now) (out (O.taken sink.old) page.old.text.bytes page.old.failed (O.faults sink.old)) (out (O.taken sink.new) page.new.text.bytes page.new.failed (O.faults sink.new)) }
{
    for n in numbers {
        page.put_number(*n, sink);
    }
}

// Appends the word of a line and the number of its node.
fn put_head<O: Sink>(word: &str, node: usize, page: &mut Page, sink: &mut O)
    requires { length word.now ≤ 64 }
    ensures { IsPut (head word.now node) (out (O.taken sink.old) page.old.text.bytes page.old.failed (O.faults sink.old)) (out (O.taken sink.new) page.new.text.bytes page.new.failed (O.faults sink.new)) }
{
    page.put_text(word, sink);
    page.put_number(node as u64, sink);
}

// Appends a line of numbers of a node.
fn put_numbers_line<O: Sink>(
    word: &str,
    node: usize,
    numbers: &[u64],
    page: &mut Page,
    sink: &mut O,
)
    requires { length word.now ≤ 64 }
    ensures { IsPut (ended (numbers_line word.now node numbers.now)) (out (O.taken sink.old) page.old.text.bytes page.old.failed (O.faults sink.old)) (out (O.taken sink.new) page.new.text.bytes page.new.failed (O.faults sink.new)) }
{
    put_head(word, node, page, sink);
    put_numbers(numbers, page, sink);
    page.put_text("\n", sink);
}

// Appends the three lines of numbers of a node.
fn put_numbers_lines<O: Sink>(node: usize, numbers: &[u64], page: &mut Page, sink: &mut O)
    requires { length numbers.now ≡ NUMBERS }
    ensures { IsPut (numbers_text node numbers.now) (out (O.taken sink.old) page.old.text.bytes page.old.failed (O.faults sink.old)) (out (O.taken sink.new) page.new.text.bytes page.new.failed (O.faults sink.new)) }
{
    let (core, devices) = numbers.split_at(CORE_NUMBERS);
    let (timers, ports) = devices.split_at(TIMER_NUMBERS);
    put_numbers_line("core", node, core, page, sink);
    put_numbers_line("timers", node, timers, page, sink);
    put_numbers_line("ports", node, ports, page, sink);
}

// Appends the I/O bytes of a node.
fn put_io<N: Nodes, O: Sink>(nodes: &N, node: usize, page: &mut Page, sink: &mut O)
    requires within { node < length (N.nodes nodes.now) }
    requires sized { IsSized (node_of (N.nodes nodes.now) node) }
    ensures { IsPut (encode_upper (node_of (N.nodes nodes.now) node).io) (out (O.taken sink.old) page.old.text.bytes page.old.failed (O.faults sink.old)) (out (O.taken sink.new) page.new.text.bytes page.new.failed (O.faults sink.new)) }
{
    for place in 0..IO_COUNT {
        page.put_byte(nodes.io(node, place), sink);
    }
}

// Appends the SRAM of a node.
fn put_sram<N: Nodes, O: Sink>(nodes: &N, node: usize, page: &mut Page, sink: &mut O)
    requires within { node < length (N.nodes nodes.now) }
    requires sized { IsSized (node_of (N.nodes nodes.now) node) }
    ensures { IsPut (encode_upper (node_of (N.nodes nodes.now) node).sram) (out (O.taken sink.old) page.old.text.bytes page.old.failed (O.faults sink.old)) (out (O.taken sink.new) page.new.text.bytes page.new.failed (O.faults sink.new)) }
{
    for place in 0..SRAM_LEN {
        page.put_byte(nodes.sram(node, place), sink);
    }
}

// Appends the five lines of a node.
fn put_node<N: Nodes, O: Sink>(nodes: &N, node: usize, page: &mut Page, sink: &mut O)
    requires within { node < length (N.nodes nodes.now) }
    requires sized { IsSized (node_of (N.nodes nodes.now) node) }
    ensures { IsPut (flat_map ended (node_lines node (node_of (N.nodes nodes.now) node))) (out (O.taken sink.old) page.old.text.bytes page.old.failed (O.faults sink.old)) (out (O.taken sink.new) page.new.text.bytes page.new.failed (O.faults sink.new)) }
{
    put_numbers_lines(node, &nodes.numbers(node), page, sink);
    put_head("io", node, page, sink);
    page.put_text(" ", sink);
    put_io(nodes, node, page, sink);
    put_head("\nsram", node, page, sink);
    page.put_text(" ", sink);
    put_sram(nodes, node, page, sink);
    page.put_text("\n", sink);
}

// Appends the lines of all nodes.
fn put_nodes<N: Nodes, O: Sink>(nodes: &N, page: &mut Page, sink: &mut O)
    requires sized { AllByRecursion IsSized (N.nodes nodes.now) }
    ensures { IsPut (flat_map ended (nodes_lines 0 (N.nodes nodes.now))) (out (O.taken sink.old) page.old.text.bytes page.old.failed (O.faults sink.old)) (out (O.taken sink.new) page.new.text.bytes page.new.failed (O.faults sink.new)) }
{
    for node in 0..nodes.count() {
        put_node(nodes, node, page, sink);
    }
}

// Appends the line of a send.
fn put_send<O: Sink>(send: &Send, page: &mut Page, sink: &mut O)
    ensures { IsPut (ended (send_line send.now)) (out (O.taken sink.old) page.old.text.bytes page.old.failed (O.faults sink.old)) (out (O.taken sink.new) page.new.text.bytes page.new.failed (O.faults sink.new)) }
{
    put_head("send", usize::from(send.node), page, sink);
    page.put_number(send.cycle, sink);
    page.put_text(" ", sink);
    page.put_byte(send.byte, sink);
    page.put_text("\n", sink);
}

// Appends the lines of sends.
fn put_sends<O: Sink>(sends: &[Send], page: &mut Page, sink: &mut O)
    ensures { IsPut (flat_map (λ x. ended (send_line x)) sends.now) (out (O.taken sink.old) page.old.text.bytes page.old.failed (O.faults sink.old)) (out (O.taken sink.new) page.new.text.bytes page.new.failed (O.faults sink.new)) }
{
    for send in sends {
        put_send(send, page, sink);
    }
}

// Appends the text of a state.
fn put_state<N: Nodes, O: Sink>(
    cycle: u64,
    nodes: &N,
    sends: &[Send],
    page: &mut Page,
    sink: &mut O,
)
    requires sized { AllByRecursion IsSized (N.nodes nodes.now) }
    ensures { IsPut (state_text record { cycle = cycle; nodes = N.nodes nodes.now; sends = sends.now }) (out (O.taken sink.old) page.old.text.bytes page.old.failed (O.faults sink.old)) (out (O.taken sink.new) page.new.text.bytes page.new.failed (O.faults sink.new)) }
{
    page.put_text("avrora state 1\ncycle", sink);
    page.put_number(cycle, sink);
    page.put_text("\n", sink);
    put_nodes(nodes, page, sink);
    put_sends(sends, page, sink);
    page.put_text("end\n", sink);
}

/// Writes the text of a state: its cycle, its nodes in order, and the sends that may still be heard. At a fault a front
/// of the text was taken, and the sink's count rose.
pub fn write<N: Nodes, O: Sink>(
    cycle: u64,
    nodes: &N,
    sends: &[Send],
    sink: &mut O,
) -> Result<(), SinkFault>
    requires sized { AllByRecursion IsSized (N.nodes nodes.now) }
    ensures taken { OnOk result (O.taken sink.new ≡ extended (O.taken sink.old) (state_text record { cycle = cycle; nodes = N.nodes nodes.now; sends = sends.now })) }
    ensures ok { OnOk result (O.faults sink.new ≡ O.faults sink.old) }

    ensures front { OnErr result (TookFront (O.taken sink.old) (state_text record { cycle = cycle; nodes = N.nodes nodes.now; sends = sends.now }) (O.taken sink.new)) }
    ensures later { O.faults sink.old ≤ O.faults sink.new }
    ensures rose { OnErr result (Rose (O.faults sink.old) (O.faults sink.new)) }
{
    let mut page = Page::new();
    put_state(cycle, nodes, sends, &mut page, sink);
    if page.failed {
        return Err(SinkFault);
    }
    match write_all(sink, page.text.as_str().as_bytes()) {
        Ok(()) => Ok(()),
        Err(fault) => Err(fault),
    }
}
