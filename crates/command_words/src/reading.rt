// What the words that were split ask for.
ghost use Rattle.std.specs.Prelude.{◌≡◌, option_map};
ghost use Rattle.clap.specs.Words.{first_of, found_of, rows_of, subcommand_rows_of};
ghost use Rattle.command_words.specs.Words.{shown};
ghost use Rattle.command_words.specs.Split.{asked_in, asked_of, cut_in, head_in, look_in, make_in, monitor_in, node_in, read_in, run_in, save_in, seeing_in, text_in, watch_in, watched_in};

use crate::Command;
use crate::operands::{bound, cycles, epochs, sample, span};
use clap::ArgMatches;

fn word_at<'w>(matches: &ArgMatches<'w>, id: &str) -> Option<&'w str>
    ensures { option_map (λ s. s.now) result ≡ first_of id.now (rows_of (found_of matches.now)) }
{
    matches.get_str(id)
}

fn text_at<'w>(matches: &ArgMatches<'w>, id: &str) -> &'w str
    ensures { result.now ≡ text_in id.now (rows_of (found_of matches.now)) }
{
    match word_at(matches, id) {
        Some(text) => text,
        None => "",
    }
}

fn run_command<'w>(matches: &ArgMatches<'w>) -> Command<'w>
    ensures { shown result ≡ run_in (rows_of (found_of matches.now)) }
{
    let file = text_at(matches, "file");
    if text_at(matches, "plain") == "true" {
        Command::RunPlain { file }
    } else {
        Command::Run { file }
    }
}

fn head_command<'w>(matches: &ArgMatches<'w>) -> Option<Command<'w>>
    ensures { option_map shown result ≡ head_in (rows_of (found_of matches.now)) }
{
    let file = text_at(matches, "file");
    match epochs(text_at(matches, "epochs")) {
        Some(epochs) => match word_at(matches, "state") {
            Some(state) => Some(Command::HeadOn {
                file,
                epochs,
                state,
            }),
            None => Some(Command::Head { file, epochs }),
        },
        None => None,
    }
}

fn save_command<'w>(matches: &ArgMatches<'w>) -> Option<Command<'w>>
    ensures { option_map shown result ≡ save_in (rows_of (found_of matches.now)) }
{
    let file = text_at(matches, "file");
    match epochs(text_at(matches, "epochs")) {
        Some(epochs) => match word_at(matches, "state") {
            Some(state) => Some(Command::SaveOn {
                file,
                epochs,
                state,
            }),
            None => Some(Command::Save { file, epochs }),
        },
        None => None,
    }
}

fn look_command<'w>(matches: &ArgMatches<'w>) -> Option<Command<'w>>
    ensures { option_map shown result ≡ look_in (rows_of (found_of matches.now)) }
{
    let file = text_at(matches, "file");
    match bound(text_at(matches, "cycle")) {
        Some(cycle) => match word_at(matches, "state") {
            Some(state) => Some(Command::LookOn { file, cycle, state }),
            None => Some(Command::Look { file, cycle }),
        },
        None => None,
    }
}

// `watch` from reset, from a state, or over moves from one.
fn watched<'w>(
    file: &'w str,
    from: u64,
    to: u64,
    places: &'w str,
    state: Option<&'w str>,
    moves: Option<&'w str>,
) -> Command<'w>
    ensures { shown result ≡ watched_in file.now places.now (option_map (λ s. s.now) state.entry) (option_map (λ s. s.now) moves.entry) (from, to) }
{
    match state {
        None => Command::Watch {
            file,
            from,
            to,
            places,
        },
        Some(state) => match moves {
            None => Command::WatchOn {
                file,
                from,
                to,
                places,
                state,
            },
            Some(moves) => Command::WatchSweep {
                file,
                from,
                to,
                places,
                state,
                moves,
            },
        },
    }
}

fn monitor_command<'w>(matches: &ArgMatches<'w>) -> Option<Command<'w>>
    ensures { option_map shown result ≡ monitor_in (rows_of (found_of matches.now)) }
{
    let file = text_at(matches, "file");
    match word_at(matches, "from") {
        Some(from) => match span(from, text_at(matches, "to")) {
            Some((from, to)) => Some(Command::MonitorSpan { file, from, to }),
            None => None,
        },
        None => Some(Command::Monitor { file }),
    }
}

fn watch_command<'w>(matches: &ArgMatches<'w>) -> Option<Command<'w>>
    ensures { option_map shown result ≡ watch_in (rows_of (found_of matches.now)) }
{
    let file = text_at(matches, "file");
    let places = text_at(matches, "places");
    let state = word_at(matches, "state");
    let moves = word_at(matches, "moves");
    match span(text_at(matches, "from"), text_at(matches, "to")) {
        Some((from, to)) => Some(watched(file, from, to, places, state, moves)),
        None => None,
    }
}

// What a subcommand that cuts a run, or goes on with one, asks for.
#[tactic(auto, unfolding(crate::specs::Split::cut_in))]
fn cutting_in<'w>(name: &str, matches: &ArgMatches<'w>) -> Option<Command<'w>>
    ensures { option_map shown result ≡ cut_in name.now (rows_of (found_of matches.now)) }
{
    match name {
        "head" => head_command(matches),
        "save" => save_command(matches),
        "resume" => Some(Command::Resume {
            file: text_at(matches, "file"),
            state: text_at(matches, "state"),
        }),
        "sweep" => Some(Command::Sweep {
            file: text_at(matches, "file"),
            state: text_at(matches, "state"),
            moves: text_at(matches, "moves"),
        }),
        _ => None,
    }
}

// What a subcommand that simulates nothing asks for, or one of those that cut a run.
#[tactic(auto, unfolding(crate::specs::Split::read_in))]
fn reading_in<'w>(name: &str, matches: &ArgMatches<'w>) -> Option<Command<'w>>
    ensures { option_map shown result ≡ read_in name.now (rows_of (found_of matches.now)) }
{
    let file = text_at(matches, "file");
    match name {
        "check" => Some(Command::Check { file }),
        "disasm" => Some(Command::Disasm { file }),
        "asm" => Some(Command::Asm { file }),
        _ => cutting_in(name, matches),
    }
}

// What a subcommand that looks into a run asks for, or one of those that simulate nothing.
#[tactic(auto, unfolding(crate::specs::Split::seeing_in))]
fn seeing_in<'w>(name: &str, matches: &ArgMatches<'w>) -> Option<Command<'w>>
    ensures { option_map shown result ≡ seeing_in name.now (rows_of (found_of matches.now)) }
{
    match name {
        "monitor" => monitor_command(matches),
        "sniff" => Some(Command::Sniff {
            file: text_at(matches, "file"),
        }),
        "look" => look_command(matches),
        "watch" => watch_command(matches),
        _ => reading_in(name, matches),
    }
}

fn make_command<'w>(matches: &ArgMatches<'w>) -> Option<Command<'w>>
    ensures { option_map shown result ≡ make_in (rows_of (found_of matches.now)) }
{
    match sample(text_at(matches, "number")) {
        Some(number) => Some(Command::Make { number }),
        None => None,
    }
}

fn node_command<'w>(matches: &ArgMatches<'w>) -> Option<Command<'w>>
    ensures { option_map shown result ≡ node_in (rows_of (found_of matches.now)) }
{
    let file = text_at(matches, "file");
    match cycles(text_at(matches, "cycles")) {
        Some(cycles) => Some(Command::Node { file, cycles }),
        None => None,
    }
}

#[tactic(auto, unfolding(crate::specs::Split::asked_in))]
fn command_in<'w>(name: &str, matches: &ArgMatches<'w>) -> Option<Command<'w>>
    ensures { option_map shown result ≡ asked_in name.now (rows_of (found_of matches.now)) }
{
    match name {
        "run" => Some(run_command(matches)),
        "make" => make_command(matches),
        "node" => node_command(matches),
        _ => seeing_in(name, matches),
    }
}

/// What the subcommand asks for, with the words behind it.
#[tactic(auto, unfolding(crate::specs::Split::asked_of))]
pub fn command_of<'w>(matches: &ArgMatches<'w>) -> Option<Command<'w>>
    ensures { option_map shown result ≡ asked_of (subcommand_rows_of matches.now) }
{
    match matches.subcommand() {
        Some((name, matches)) => command_in(name, matches),
        None => None,
    }
}
