// Profiles of one node, each a line of a text file: on what the node spent the cycles of a window.
ghost use Rattle.std.specs.Prelude.{◌≤◌, length, IfOk};

use crate::running::rows_in;
use arrayvec::ArrayString;
use node_core::Row;
use node_monitors::{Profile, Spent};
use sim_io::{Sink, SinkFault, put_decimal, put_hex4};
use std::alloc::Global;
use std::fs::Files;
use stored_cases::{Failed, LineCases, bytes_of, do_lines, write_line, write_number};

// More rows than any run here makes.
const MOST: usize = 1_000_000;

// An image, the cycle limit, and the window.
#[derive(Clone, Copy)]
struct Case<'l> {
    image: &'l str,
    limit: u32,
    from: u32,
    until: u32,
}

// `IMAGE LIMIT FROM UNTIL`.
fn read_case<'l>(line: &'l str) -> Option<Case<'l>> {
    let (image, numbers) = line.split_once(' ')?;
    let (limit, window) = numbers.split_once(' ')?;
    let (from, until) = window.split_once(' ')?;
    Some(Case {
        image,
        limit: limit.parse().ok()?,
        from: from.parse().ok()?,
        until: until.parse().ok()?,
    })
}

// The profile of node 0 over the rows.
fn profile_of(alloc: Global, from: u32, until: u32, rows: &[Row]) -> Option<Profile> {
    if rows.len() > MOST {
        return None;
    }
    Profile::of(alloc, 0, (u64::from(from), u64::from(until)), rows).ok()
}

// `KIND WORD COUNT CYCLES`.
fn write_spent<O: Sink>(kind: &str, spent: Spent, out: &mut O) -> Result<(), SinkFault>
    requires { length kind.now ≤ 8 }
{
    let mut line = ArrayString::<64>::new();
    line.push_str(kind);
    line.push_str(" ");
    put_hex4(spent.word, &mut line);
    line.push_str(" ");
    put_decimal(spent.count, &mut line);
    line.push_str(" ");
    put_decimal(spent.cycles, &mut line);
    write_line(line.as_str(), out)
}

fn write_profile<O: Sink>(profile: &Profile, out: &mut O) -> Result<(), SinkFault> {
    write_number("lead", profile.lead(), out)?;
    for spent in profile.at() {
        write_spent("at", *spent, out)?;
    }
    for spent in profile.entered() {
        write_spent("vector", *spent, out)?;
    }
    write_number("asleep", profile.asleep(), out)?;
    write_number("stopped", profile.stopped(), out)?;
    write_number("charge", profile.charge(), out)
}

// Profiles of one node.
#[derive(Drop)]
struct Profiles;

impl LineCases for Profiles {
    fn do_case<R: Files + AllocGlobal, O: Sink>(
        &mut self,
        rt: &R,
        line: &str,
        out: &mut O,
    ) -> Result<(), Failed> {
        let alloc = rt.alloc();
        let Some(case) = read_case(line) else {
            return Err(Failed);
        };
        let image = bytes_of(rt, case.image)?;
        let Some(rows) = rows_in(alloc, image.as_slice(), case.limit, case.from, case.until) else {
            return Err(Failed);
        };
        let Some(profile) = profile_of(alloc, case.from, case.until, rows.as_slice()) else {
            return Err(Failed);
        };
        Ok(write_profile(&profile, out)?)
    }
}

/// Makes the profiles of a file, line after line; the lines are written too.
pub fn do_profiles<R: Files + AllocGlobal, O: Sink>(
    rt: &R,
    file: &str,
    out: &mut O,
) -> Result<(), Failed> {
    do_lines(rt, file, &mut Profiles, out)
}
