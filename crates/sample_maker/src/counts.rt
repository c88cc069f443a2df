// What came out of a run.
ghost use Rattle.std.specs.Prelude.{◌≡◌};
ghost use Rattle.std.specs.List.{count_by};
ghost use Rattle.sample_maker.specs.Counts.{is_sent, is_heard, counts_of};

use node_core::{Kind, Row};

/// How often the nodes of a run sent, and what they heard when they sampled the air.
#[derive(Clone, Copy)]
pub struct Counts {
    /// Bytes that were sent.
    pub sent: u64,
    /// Samples in which nothing was heard.
    pub quiet: u64,
    /// Samples in which one byte was heard.
    pub heard: u64,
    /// Samples in which several bytes clashed.
    pub clashes: u64,
}

fn is_sent(row: &Row) -> bool
    ensures { result ≡ is_sent row.now }
{
    match row.kind {
        Kind::Sent { .. } => true,
        _ => false,
    }
}

// Whether the row is a sample of this status.
fn is_heard(status: u8, row: &Row) -> bool
    ensures { result ≡ is_heard status row.now }
{
    match row.kind {
        Kind::Heard { heard } => heard.status == status,
        _ => false,
    }
}

fn sends(rows: &[Row]) -> u64
    ensures { result ≡ count_by is_sent rows.now }
{
    let mut count = 0;
    for row in rows {
        if is_sent(row) {
            count += 1;
        }
    }
    count
}

// How many samples have this status.
fn samples(rows: &[Row], status: u8) -> u64
    ensures { result ≡ count_by (is_heard status) rows.now }
{
    let mut count = 0;
    for row in rows {
        if is_heard(status, row) {
            count += 1;
        }
    }
    count
}

/// The counts of these rows.
pub fn count(rows: &[Row]) -> Counts
    ensures { result ≡ counts_of rows.now }
{
    Counts {
        sent: sends(rows),
        quiet: samples(rows, 0),
        heard: samples(rows, 1),
        clashes: samples(rows, 2),
    }
}
