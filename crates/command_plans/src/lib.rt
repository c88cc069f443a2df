//! What a call of the program reads, and how it ends, whatever is to be done in between: a plan is what is read in
//! which order, and what comes of it (`specs/Plan`). Each kind of file is read and accepted here, or is a `Trouble`; a
//! call's end is reported by a line on the error stream and a `Status`.
#![tactic(auto)]

mod files;
mod reports;
mod status;
mod trouble;

pub use files::{
    MOST_STATE_BYTES, read_file, read_image, read_images, read_moves, read_places, read_scenario,
    read_source,
};
pub use reports::{report, tell};
pub use status::Status;
pub use trouble::{
    Complaint, ImageCause, MovesCause, PlacesCause, ScenarioCause, SourceCause, StateCause, Trouble,
};
