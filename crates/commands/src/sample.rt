// `make`: samples, and what is written of them.
ghost use Rattle.std.specs.Prelude.{◌≡◌};
ghost use Rattle.world_core.specs.Order.{run_rows};
ghost use Rattle.node_runner.specs.Scenario.{fleet_of};
ghost use Rattle.sample_maker.specs.Sample.{sample};
ghost use Rattle.commands.specs.Sample.{counts_line, sample_line};
ghost use Rattle.command_plans.specs.Ends.{stream};
ghost use Rattle.command_plans.specs.Parts.{Written};

use arrayvec::ArrayString;
use command_plans::Trouble;
use fleet_plain::run_plain;
use node_core::Row;
use sample_maker::{Counts, count, make};
use sim_io::{Sink, put_decimal, write_all};
use std::alloc::Global;

/// How many nodes the sample has.
pub const NODES: u8 = 8;

// The line that says what came out of the sample of a number.
fn counts_line(number: u16, counts: Counts) -> ArrayString<160>
    ensures { result.bytes ≡ counts_line number counts }
{
    let mut line = ArrayString::new();
    line.push_str("make ");
    put_decimal(number, &mut line);
    line.push_str(": 8 nodes, 1000000 cycles, ");
    put_decimal(counts.sent, &mut line);
    line.push_str(" sent, ");
    put_decimal(counts.quiet, &mut line);
    line.push_str(" quiet, ");
    put_decimal(counts.heard, &mut line);
    line.push_str(" heard, ");
    put_decimal(counts.clashes, &mut line);
    line.push_str(" clashes\n");
    line
}

/// Writes what came out of the sample of a number, of which these are the rows of the whole run.
pub fn write_counts<'n, O: Sink>(number: u16, rows: &[Row], out: &mut O) -> Result<(), Trouble<'n>>
    requires { rows.now ≡ run_rows (fleet_of (sample number 8)) }
    ensures { Written (sample_line number) (stream (O.taken out.old) (O.faults out.old)) (stream (O.taken out.new) (O.faults out.new)) result }
{
    let line = counts_line(number, count(rows));
    match write_all(out, line.as_str().as_bytes()) {
        Ok(()) => Ok(()),
        Err(_) => Err(Trouble::OutFailed),
    }
}

/// `make NUMBER`: runs the sample of a number with 8 nodes on one thread, and writes how often they sent and what they
/// heard.
pub fn write_sample<'n, O: Sink>(alloc: Global, number: u16, out: &mut O) -> Result<(), Trouble<'n>>
    ensures { Written (sample_line number) (stream (O.taken out.old) (O.faults out.old)) (stream (O.taken out.new) (O.faults out.new)) result }
{
    let Ok(network) = make(alloc, number, NODES) else {
        return Err(Trouble::NoMemory);
    };
    let Ok(rows) = run_plain(alloc, &network) else {
        return Err(Trouble::NoMemory);
    };
    write_counts(number, rows.as_slice(), out)
}
