// The lines of a profile.
ghost use Rattle.std.specs.Prelude.{◌≡◌, ◌≤◌, ◌++◌, OnOk, length};
ghost use Rattle.std.specs.List.{flat_map};
ghost use Rattle.run_reports.specs.Profiles.{number_line, profile_text, spent_line};

use arrayvec::ArrayString;
use node_monitors::{Profile, Spent};
use sim_io::{put_decimal, put_hex4};
use std::alloc::AllocError;

// Appends a line of one number of a node.
#[tactic(auto, unfolding(crate::specs::Profiles::number_line))]
fn put_number(node: u8, kind: &str, number: u64, text: &mut Vec<u8>) -> Result<(), AllocError>
    requires { length kind.now ≤ 9 }
    ensures { OnOk result (text.new.items ≡ text.old.items ++ number_line node kind.now number) }
{
    let mut line = ArrayString::<40>::new();
    put_decimal(node, &mut line);
    line.push_str(kind);
    put_decimal(number, &mut line);
    line.push_str("\n");
    text.extend_from_slice(line.as_str().as_bytes())
}

// Appends a line of what a node spent at one word of flash.
#[tactic(auto, unfolding(crate::specs::Profiles::spent_line))]
fn put_spent(node: u8, kind: &str, spent: &Spent, text: &mut Vec<u8>) -> Result<(), AllocError>
    requires { length kind.now ≤ 8 }
    ensures { OnOk result (text.new.items ≡ text.old.items ++ spent_line node kind.now spent.now) }
{
    let mut line = ArrayString::<64>::new();
    put_decimal(node, &mut line);
    line.push_str(kind);
    put_hex4(spent.word, &mut line);
    line.push_str(" ");
    put_decimal(spent.count, &mut line);
    line.push_str(" ");
    put_decimal(spent.cycles, &mut line);
    line.push_str("\n");
    text.extend_from_slice(line.as_str().as_bytes())
}

// Appends a line for each of these words.
fn put_all_spent(node: u8, kind: &str, all: &[Spent], text: &mut Vec<u8>) -> Result<(), AllocError>
    requires { length kind.now ≤ 8 }
    ensures { OnOk result (text.new.items ≡ text.old.items ++ flat_map (spent_line node kind.now) all.now) }
{
    for spent in all {
        put_spent(node, kind, spent, text)?;
    }
    Ok(())
}

/// Appends the lines of the profile of a node.
#[tactic(auto, unfolding(crate::specs::Profiles::profile_text))]
pub fn put_profile(node: u8, profile: &Profile, text: &mut Vec<u8>) -> Result<(), AllocError>
    ensures { OnOk result (text.new.items ≡ text.old.items ++ profile_text node profile.now) }
{
    put_number(node, " lead ", profile.lead(), text)?;
    put_all_spent(node, " at ", profile.at(), text)?;
    put_all_spent(node, " vector ", profile.entered(), text)?;
    put_number(node, " asleep ", profile.asleep(), text)?;
    put_number(node, " stopped ", profile.stopped(), text)?;
    put_number(node, " charge ", profile.charge(), text)
}
