// What is written of a run.
use crate::running::Run;
use arrayvec::ArrayString;
use node_core::{Kind, Row};
use sim_io::{Sink, SinkFault, put_decimal, put_hex2};
use stored_cases::write_line;

fn is_instruction(row: &Row) -> bool {
    match row.kind {
        Kind::Instr { .. } => true,
        _ => false,
    }
}

fn write_sram<O: Sink>(low: u8, high: u8, out: &mut O) -> Result<(), SinkFault> {
    let mut line = ArrayString::<32>::new();
    line.push_str("SRAM 0100 ");
    put_hex2(low, &mut line);
    line.push_str(" ");
    put_hex2(high, &mut line);
    write_line(line.as_str(), out)
}

/// Writes the rows of a run but those of instructions, the row of its end, a line `N rows, cycle C`, and its two bytes
/// of SRAM.
pub fn write_run<O: Sink>(run: &Run, out: &mut O) -> Result<(), SinkFault> {
    for row in run.rows.iter() {
        if !is_instruction(row) {
            trace_writer::write(&[*row], out)?;
        }
    }
    trace_writer::write(&[run.end], out)?;
    let mut line = ArrayString::<64>::new();
    put_decimal(run.rows.len() as u64, &mut line);
    line.push_str(" rows, cycle ");
    put_decimal(run.cycle, &mut line);
    write_line(line.as_str(), out)?;
    match run.sram {
        Some((low, high)) => write_sram(low, high, out),
        None => Ok(()),
    }
}
