// What the record and the nodes of a session answer, as a case file has it.
use air_cases::{Answer, Fault};
use neighbour_sync::{Behind, Posted, SampleOutcome};

/// The answer to a post.
pub fn of_posted(posted: Posted) -> Answer {
    match posted {
        Posted::Added => Answer::Added,
        Posted::There => Answer::There,
        Posted::Early { count } => Answer::Early(count),
    }
}

/// The answer to a cut of the record.
pub fn of_cut(cut: Result<(), Behind>) -> Answer {
    match cut {
        Ok(()) => Answer::Cut,
        Err(Behind { node, clock }) => Answer::Behind { node, clock },
    }
}

/// The answer to a node of a session that tried to sample.
pub fn of_tried(tried: Result<SampleOutcome, Behind>) -> Result<Answer, Fault> {
    match tried {
        Ok(outcome) => of_passed(outcome),
        Err(Behind { node, clock }) => Ok(Answer::Waits { node, clock }),
    }
}

/// The answer to a node of a session that waited for its sample.
pub fn of_passed(passed: SampleOutcome) -> Result<Answer, Fault> {
    match passed {
        SampleOutcome::Heard(heard) => Ok(Answer::Heard(heard)),
        SampleOutcome::Halted => Ok(Answer::Halted),
        SampleOutcome::NoMemory => Err(Fault::NoMemory),
    }
}
