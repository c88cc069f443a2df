// What is said on the error stream.
ghost use Rattle.std.specs.Prelude.{[], ◌≡◌, ◌≤◌, ◌+◌, ◌++◌, codes, length};
ghost use Rattle.arrayvec.specs.ArrayString.{array_string_len};
ghost use Rattle.command_plans.specs.Ends.{cause_text, line_due, moves_cause_text, place_text, places_cause_text, scenario_cause_text, source_cause_text, state_cause_text, status_due, stream};
ghost use Rattle.command_plans.specs.Parts.{end_at, end_of, LineSaid, Reported, Told};

use crate::Status;
use crate::trouble::{
    Complaint, ImageCause, MovesCause, PlacesCause, ScenarioCause, SourceCause, StateCause, Trouble,
};
use arrayvec::ArrayString;
use sim_io::{Sink, SinkFault, put_decimal, write_all};
use state_text::StateFault;

// Writes a line: what stands before the name of a file, the name, and what stands behind it.
fn say<E: Sink>(err: &mut E, before: &str, name: &str, after: &str) -> Result<(), SinkFault>
    ensures { LineSaid (before.now ++ name.now ++ after.now) (stream (E.taken err.old) (E.faults err.old)) (stream (E.taken err.new) (E.faults err.new)) result }
{
    match write_all(err, before.as_bytes()) {
        Ok(()) => match write_all(err, name.as_bytes()) {
            Ok(()) => write_all(err, after.as_bytes()),
            Err(fault) => Err(fault),
        },
        Err(fault) => Err(fault),
    }
}

#[tactic(auto, unfolding(crate::specs::Ends::place_text))]
fn put_place(line: Option<usize>, out: &mut ArrayString<64>)
    requires { array_string_len out.old + 27 ≤ 64 }
    ensures bytes { out.new.bytes ≡ out.old.bytes ++ place_text line }
    ensures len { array_string_len out.new ≤ array_string_len out.old + 27 }
{
    match line {
        Some(line) => {
            out.push_str(", line ");
            put_decimal(line, out);
        }
        None => {}
    }
}

// Why an image is refused, and in which line of it.
#[tactic(auto, unfolding(crate::specs::Ends::cause_text, crate::specs::Ends::place_text))]
fn image_cause(cause: ImageCause) -> (&'static str, Option<usize>)
    ensures text { result.0.now ++ place_text result.1 ≡ cause_text cause }
    ensures short { length result.0.now ≤ 15 }
{
    match cause {
        ImageCause::TooLong => ("TooLong", None),
        ImageCause::Faulty(fault) => (fault.name(), fault.line()),
    }
}

// Why a scenario is refused.
#[tactic(auto, unfolding(crate::specs::Ends::scenario_cause_text, crate::specs::Ends::place_text))]
fn scenario_cause(cause: ScenarioCause) -> (&'static str, Option<usize>)
    ensures text { result.0.now ++ place_text result.1 ≡ scenario_cause_text cause }
    ensures short { length result.0.now ≤ 15 }
{
    match cause {
        ScenarioCause::TooLong => ("TooLong", None),
        ScenarioCause::Faulty(fault) => (fault.name(), None),
    }
}

// Why a source is refused, and in which line of it.
#[tactic(auto, unfolding(crate::specs::Ends::source_cause_text, crate::specs::Ends::place_text))]
fn source_cause(cause: SourceCause) -> (&'static str, Option<usize>)
    ensures text { result.0.now ++ place_text result.1 ≡ source_cause_text cause }
    ensures short { length result.0.now ≤ 15 }
{
    match cause {
        SourceCause::TooLong => ("TooLong", None),
        SourceCause::Faulty(fault) => (fault.name(), fault.line()),
    }
}

// Why a saved state is refused, and in which line of it.
#[tactic(auto, unfolding(crate::specs::Ends::state_cause_text, crate::specs::Ends::place_text))]
fn state_cause(cause: StateCause) -> (&'static str, Option<usize>)
    ensures text { result.0.now ++ place_text result.1 ≡ state_cause_text cause }
    ensures short { length result.0.now ≤ 15 }
{
    match cause {
        StateCause::TooLong => ("TooLong", None),
        StateCause::Faulty(StateFault::NotAState { line }) => ("NotAState", Some(line)),
        StateCause::Faulty(StateFault::OutOfBounds { line }) => ("OutOfBounds", Some(line)),
        StateCause::Faulty(StateFault::PastEnd) => ("PastEnd", None),
        StateCause::Faulty(StateFault::NoMemory) => ("NoMemory", None),
        StateCause::PastCycle => ("PastCycle", None),
        StateCause::TooMany => ("TooMany", None),
    }
}

// Why the moves of a sweep are refused, and in which line of them.
#[tactic(auto, unfolding(crate::specs::Ends::moves_cause_text, crate::specs::Ends::place_text))]
fn moves_cause(cause: MovesCause) -> (&'static str, Option<usize>)
    ensures text { result.0.now ++ place_text result.1 ≡ moves_cause_text cause }
    ensures short { length result.0.now ≤ 15 }
{
    match cause {
        MovesCause::TooLong => ("TooLong", None),
        MovesCause::Faulty(fault) => (fault.name(), fault.line()),
    }
}

// Why the places that are to be watched are refused, and in which line of them.
#[tactic(auto, unfolding(crate::specs::Ends::places_cause_text, crate::specs::Ends::place_text))]
fn places_cause(cause: PlacesCause) -> (&'static str, Option<usize>)
    ensures text { result.0.now ++ place_text result.1 ≡ places_cause_text cause }
    ensures short { length result.0.now ≤ 15 }
{
    match cause {
        PlacesCause::TooLong => ("TooLong", None),
        PlacesCause::Faulty(fault) => (fault.name(), fault.line()),
    }
}

// What stands behind the name of a file that is refused: what it is, why, and in which line.
fn put_refusal(what: &str, cause: (&'static str, Option<usize>), after: &mut ArrayString<64>)
    requires empty { after.old.bytes ≡ [] }
    requires what { length what.now ≤ 20 }
    requires short { length cause.0.now ≤ 15 }
    ensures { after.new.bytes ≡ what.now ++ (cause.entry.0.now ++ place_text cause.entry.1) ++ codes "\n" }
{
    after.push_str(what);
    after.push_str(cause.0);
    put_place(cause.1, after);
    after.push_str("\n");
}

// The line that is owed, but for what stands behind the name of a file, which is put into `after`: what stands before
// it, and the name.
#[tactic(auto, unfolding(crate::specs::Ends::line_due))]
fn line_at<'n>(trouble: Trouble<'n>, after: &mut ArrayString<64>) -> (&'static str, &'n str)
    requires { after.old.bytes ≡ [] }
    ensures { result.0.now ++ result.1.now ++ after.new.bytes ≡ line_due (end_at trouble.entry) }
{
    match trouble {
        Trouble::OutFailed => ("avrora: write failed\n", ""),
        Trouble::NoMemory => ("avrora: out of memory\n", ""),
        Trouble::ReadFailed(name) => {
            after.push_str("\n");
            ("avrora: cannot read ", name)
        }
        Trouble::Refused(Complaint::BadWords) => ("avrora: bad command line\n", ""),
        Trouble::Refused(Complaint::BadScenario(name, cause)) => {
            put_refusal(": scenario refused: ", scenario_cause(cause), after);
            ("avrora: ", name)
        }
        Trouble::Refused(Complaint::BadImage(name, cause)) => {
            put_refusal(": image refused: ", image_cause(cause), after);
            ("avrora: ", name)
        }
        Trouble::Refused(Complaint::BadSource(name, cause)) => {
            put_refusal(": source refused: ", source_cause(cause), after);
            ("avrora: ", name)
        }
        Trouble::Refused(Complaint::BadState(name, cause)) => {
            put_refusal(": state refused: ", state_cause(cause), after);
            ("avrora: ", name)
        }
        Trouble::Refused(Complaint::BadMoves(name, cause)) => {
            put_refusal(": moves refused: ", moves_cause(cause), after);
            ("avrora: ", name)
        }
        Trouble::Refused(Complaint::BadPlaces(name, cause)) => {
            put_refusal(": places refused: ", places_cause(cause), after);
            ("avrora: ", name)
        }
    }
}

fn status_at(trouble: Trouble) -> Status
    ensures { result ≡ status_due (end_at trouble.entry) }
{
    match trouble {
        Trouble::OutFailed => Status::SinkFailed,
        Trouble::NoMemory => Status::NoMemory,
        Trouble::ReadFailed(_) => Status::ReadFailed,
        Trouble::Refused(Complaint::BadWords) => Status::BadWords,
        Trouble::Refused(Complaint::BadScenario(_, _)) => Status::BadScenario,
        Trouble::Refused(Complaint::BadImage(_, _)) => Status::BadImage,
        Trouble::Refused(Complaint::BadSource(_, _)) => Status::BadSource,
        Trouble::Refused(Complaint::BadState(_, _)) => Status::BadState,
        Trouble::Refused(Complaint::BadMoves(_, _)) => Status::BadState,
        Trouble::Refused(Complaint::BadPlaces(_, _)) => Status::BadState,
    }
}

/// Says on `err` why a call stopped short.
pub fn tell<E: Sink>(err: &mut E, trouble: Trouble) -> Status
    ensures { Told (end_at trouble.entry) (stream (E.taken err.old) (E.faults err.old)) (stream (E.taken err.new) (E.faults err.new)) result }
{
    let mut after = ArrayString::new();
    let (before, name) = line_at(trouble, &mut after);
    match say(err, before, name, after.as_str()) {
        Ok(()) => status_at(trouble),
        Err(_) => Status::SinkFailed,
    }
}

/// The status of a call that ended so; where it stopped short, `err` takes a line that says why, ended by LF. Where
/// that line cannot be written the status is 1.
pub fn report<E: Sink>(err: &mut E, outcome: Result<(), Trouble>) -> Status
    ensures { Reported (end_of outcome.entry) (stream (E.taken err.old) (E.faults err.old)) (stream (E.taken err.new) (E.faults err.new)) result }
{
    match outcome {
        Ok(()) => Status::Done,
        Err(trouble) => tell(err, trouble),
    }
}
