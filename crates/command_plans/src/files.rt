// Reads the files of a call.
ghost use Rattle.std.specs.Prelude.{◌≡◌, ◌<◌, ◌≤◌, length, IfOk};
ghost use Rattle.std.specs.List.{All};
ghost use Rattle.places_text.specs.Known.{IsKnown};
ghost use Rattle.scenario_file.specs.Scenario.{IsScenario};
ghost use Rattle.scenario_file.specs.Shown.{parts};
ghost use Rattle.command_plans.specs.Plan.{Give, Read, image_plan, images_plan, moves_plan, places_plan, scenario_plan, source_plan};
ghost use Rattle.command_plans.specs.Ends.{reads};
ghost use Rattle.command_plans.specs.Parts.{ReadAs, refusal_of};

use crate::trouble::{
    Complaint, ImageCause, MovesCause, PlacesCause, ScenarioCause, SourceCause, Trouble,
};
use asm_text::{AsmFault, assemble};
use avr_program::Program;
use ihex_loader::{Flash, HexFault, load};
use moves_text::{Move, MovesFault};
use node_places::Place;
use places_text::PlacesFault;
use scenario_file::{ScenarioFault, ScenarioText};
use sim_io::{Name, ReadFault, Store};
use std::alloc::Global;

/// The most bytes of an image's text.
pub const MOST_IMAGE_BYTES: usize = 1_048_576;

/// The most bytes of a scenario's text.
pub const MOST_SCENARIO_BYTES: usize = 524_288;

/// The most bytes of a source's text.
pub const MOST_SOURCE_BYTES: usize = 1_048_576;

/// The most bytes of the text of a sweep's moves.
pub const MOST_MOVES_BYTES: usize = 4_194_304;

/// The most bytes of a state's text.
pub const MOST_STATE_BYTES: usize = 4_194_304;

/// The most bytes of the text of places: more than as many lines as it may have can have.
pub const MOST_PLACES_BYTES: usize = 131_072;

/// The bytes of the file `name`, at most `most`; a longer one is refused as `too_long` says.
pub fn read_file<'n, S: Store>(
    alloc: Global,
    name: &'n str,
    most: usize,
    too_long: Complaint<'n>,
    store: &mut S,
) -> Result<Vec<u8>, Trouble<'n>>
    ensures held { S.held store.new ≡ S.held store.old }
    ensures read { ReadAs (S.held store.old) (Read name.entry.now most (refusal_of too_long.entry) Give) (λ bytes. bytes.items)
        (reads (S.faults store.old) (S.failed store.old)) (reads (S.faults store.new) (S.failed store.new)) result }
{
    match store.read(alloc, name, most) {
        Ok(bytes) => Ok(bytes),
        Err(ReadFault::Failed) => Err(Trouble::ReadFailed(name)),
        Err(ReadFault::TooLong) => Err(Trouble::Refused(too_long)),
        Err(ReadFault::NoMemory) => Err(Trouble::NoMemory),
    }
}

/// The flash of the image in the file `name`, which has at most 1,048,576 bytes of text.
pub fn read_image<'n, S: Store>(
    alloc: Global,
    name: &'n str,
    store: &mut S,
) -> Result<Flash, Trouble<'n>>
    ensures held { S.held store.new ≡ S.held store.old }
    ensures read { ReadAs (S.held store.old) (image_plan name.entry.now) (λ flash. flash)
        (reads (S.faults store.old) (S.failed store.old)) (reads (S.faults store.new) (S.failed store.new)) result }
{
    let too_long = Complaint::BadImage(name, ImageCause::TooLong);
    let read = match read_file(alloc, name, MOST_IMAGE_BYTES, too_long, store) {
        Ok(bytes) => load(alloc, bytes.as_slice()),
        Err(trouble) => return Err(trouble),
    };
    match read {
        Ok(flash) => Ok(flash),
        Err(HexFault::NoMemory) => Err(Trouble::NoMemory),
        Err(fault) => Err(Trouble::Refused(Complaint::BadImage(name, ImageCause::Faulty(fault)))),
    }
}

/// The images in the files of these names, each read and accepted before the next is read. Equal ones are kept once.
pub fn read_images<'n, S: Store>(
    alloc: Global,
    names: &'n [Name],
    store: &mut S,
) -> Result<Vec<Program>, Trouble<'n>>
    ensures held { S.held store.new ≡ S.held store.old }
    ensures count { IfOk result (λ images. length images.items ≡ length names.entry.now) }
    ensures read { ReadAs (S.held store.old) (images_plan names.entry.now) (λ images. images.items)
        (reads (S.faults store.old) (S.failed store.old)) (reads (S.faults store.new) (S.failed store.new)) result }
{
    let Ok(mut images) = Vec::with_capacity(alloc, names.len()) else {
        return Err(Trouble::NoMemory);
    };
    for name in names {
        let flash = match read_image(alloc, name.as_str(), store) {
            Ok(flash) => flash,
            Err(trouble) => return Err(trouble),
        };
        let Ok(program) = Program::among(alloc, images.as_slice(), flash) else {
            return Err(Trouble::NoMemory);
        };
        images.push_reserved(program);
    }
    Ok(images)
}

/// What the scenario in the file `name` says, which has at most 524,288 bytes of text.
pub fn read_scenario<'n, S: Store>(
    alloc: Global,
    name: &'n str,
    store: &mut S,
) -> Result<ScenarioText, Trouble<'n>>
    ensures held { S.held store.new ≡ S.held store.old }
    ensures lawful { IfOk result (λ text. IsScenario (parts text)) }
    ensures read { ReadAs (S.held store.old) (scenario_plan name.entry.now) parts
        (reads (S.faults store.old) (S.failed store.old)) (reads (S.faults store.new) (S.failed store.new)) result }
{
    let too_long = Complaint::BadScenario(name, ScenarioCause::TooLong);
    let read = match read_file(alloc, name, MOST_SCENARIO_BYTES, too_long, store) {
        Ok(bytes) => scenario_file::read(alloc, bytes.as_slice()),
        Err(trouble) => return Err(trouble),
    };
    match read {
        Ok(text) => Ok(text),
        Err(ScenarioFault::NoMemory) => Err(Trouble::NoMemory),
        Err(fault) => Err(Trouble::Refused(Complaint::BadScenario(
            name,
            ScenarioCause::Faulty(fault),
        ))),
    }
}

/// The words of the program of the source in the file `name`, which has at most 1,048,576 bytes of text.
pub fn read_source<'n, S: Store>(
    alloc: Global,
    name: &'n str,
    store: &mut S,
) -> Result<Vec<u16>, Trouble<'n>>
    ensures held { S.held store.new ≡ S.held store.old }
    ensures few { IfOk result (λ words. length words.items ≤ 65536) }
    ensures read { ReadAs (S.held store.old) (source_plan name.entry.now) (λ words. words.items)
        (reads (S.faults store.old) (S.failed store.old)) (reads (S.faults store.new) (S.failed store.new)) result }
{
    let too_long = Complaint::BadSource(name, SourceCause::TooLong);
    let read = match read_file(alloc, name, MOST_SOURCE_BYTES, too_long, store) {
        Ok(bytes) => assemble(alloc, bytes.as_slice()),
        Err(trouble) => return Err(trouble),
    };
    match read {
        Ok(words) => Ok(words),
        Err(AsmFault::NoMemory) => Err(Trouble::NoMemory),
        Err(fault) => Err(Trouble::Refused(Complaint::BadSource(name, SourceCause::Faulty(fault)))),
    }
}

/// The moves of a sweep of so many nodes in the file `name`, which has at most 4,194,304 bytes of text.
pub fn read_moves<'n, S: Store>(
    alloc: Global,
    nodes: u8,
    name: &'n str,
    store: &mut S,
) -> Result<Vec<Move>, Trouble<'n>>
    ensures held { S.held store.new ≡ S.held store.old }
    ensures known { IfOk result (λ moves. All (λ m. m.node < nodes) moves.items) }
    ensures read { ReadAs (S.held store.old) (moves_plan nodes name.entry.now) (λ moves. moves.items)
        (reads (S.faults store.old) (S.failed store.old)) (reads (S.faults store.new) (S.failed store.new)) result }
{
    let too_long = Complaint::BadMoves(name, MovesCause::TooLong);
    let read = match read_file(alloc, name, MOST_MOVES_BYTES, too_long, store) {
        Ok(bytes) => moves_text::read(alloc, nodes, bytes.as_slice()),
        Err(trouble) => return Err(trouble),
    };
    match read {
        Ok(moves) => Ok(moves),
        Err(MovesFault::NoMemory) => Err(Trouble::NoMemory),
        Err(fault) => Err(Trouble::Refused(Complaint::BadMoves(name, MovesCause::Faulty(fault)))),
    }
}

/// The places of a network of so many nodes in the file `name`, which has at most 131,072 bytes of text.
pub fn read_places<'n, S: Store>(
    alloc: Global,
    nodes: u8,
    name: &'n str,
    store: &mut S,
) -> Result<Vec<Place>, Trouble<'n>>
    ensures held { S.held store.new ≡ S.held store.old }
    ensures known { IfOk result (λ places. All (IsKnown nodes) places.items) }
    ensures read { ReadAs (S.held store.old) (places_plan nodes name.entry.now) (λ places. places.items)
        (reads (S.faults store.old) (S.failed store.old)) (reads (S.faults store.new) (S.failed store.new)) result }
{
    let too_long = Complaint::BadPlaces(name, PlacesCause::TooLong);
    let read = match read_file(alloc, name, MOST_PLACES_BYTES, too_long, store) {
        Ok(bytes) => places_text::read(alloc, nodes, bytes.as_slice()),
        Err(trouble) => return Err(trouble),
    };
    match read {
        Ok(places) => Ok(places),
        Err(PlacesFault::NoMemory) => Err(Trouble::NoMemory),
        Err(fault) => Err(Trouble::Refused(Complaint::BadPlaces(name, PlacesCause::Faulty(fault)))),
    }
}
