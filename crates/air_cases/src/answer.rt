// What is answered to a question or a step, or is to be answered.
use crate::fault::Fault;
use crate::words::{Section, byte_of};
use air_base::{Heard, Sampled};

/// An answer.
#[derive(Clone, Copy, Debug, PartialEq, Eq)]
pub enum Answer {
    /// It is accepted.
    Accepted,
    /// A number is out of its range.
    Range,
    /// The link at this place goes to its own node.
    SelfLink(u64),
    /// The link at this place equals an earlier one.
    TwiceLinked(u64),
    /// The send at this place breaks a law.
    SendOrder(u64),
    /// The sample at this place breaks a law.
    AskOrder(u64),
    /// Whether it is so.
    Holds(bool),
    /// A number.
    Number(u64),
    /// The step at this place is the first that is not allowed.
    Illegal(u64),
    /// It is the state that is given, or the record.
    State,
    /// It is another one.
    OtherState,
    /// A sample hears this.
    Heard(Heard),
    /// A sample has to wait for this node, whose clock this is.
    Waits {
        /// The node.
        node: u8,
        /// Its clock, in cycles.
        clock: u64,
    },
    /// A send is recorded now.
    Added,
    /// It was recorded before.
    There,
    /// Only so many sends of its node are posted, and it is a later one.
    Early(u64),
    /// A node posted a send in a session, and has seen that so many of its sends are posted.
    Told(u64),
    /// All nodes are told to halt.
    Halted,
    /// The record is cut.
    Cut,
    /// It is not cut, since this node is behind.
    Behind {
        /// The node.
        node: u8,
        /// Its clock, in cycles.
        clock: u64,
    },
}

impl Answer {
    /// The answer to a sample.
    pub fn of_sampled(sampled: Sampled) -> Result<Self, Fault> {
        match sampled {
            Sampled::Heard(heard) => Ok(Answer::Heard(heard)),
            Sampled::NotYet { node, clock } => Ok(Answer::Waits { node, clock }),
            Sampled::NoMemory => Err(Fault::NoMemory),
        }
    }
}

// The answer to a question about a topology, a world or a state; `None` where the section is none.
fn to_question(section: &Section<'_>) -> Option<Answer> {
    match (section.word, section.numbers.as_slice()) {
        ("ok", []) => Some(Answer::Accepted),
        ("range", []) => Some(Answer::Range),
        ("self_link", [place]) => Some(Answer::SelfLink(*place)),
        ("twice_linked", [place]) => Some(Answer::TwiceLinked(*place)),
        ("send_order", [place]) => Some(Answer::SendOrder(*place)),
        ("ask_order", [place]) => Some(Answer::AskOrder(*place)),
        ("illegal", [place]) => Some(Answer::Illegal(*place)),
        ("state", []) => Some(Answer::State),
        ("yes", []) => Some(Answer::Holds(true)),
        ("no", []) => Some(Answer::Holds(false)),
        ("is", [n]) => Some(Answer::Number(*n)),
        _ => None,
    }
}

// The answer to a post or a cut; `None` where the section is none.
fn to_step(section: &Section<'_>) -> Result<Option<Answer>, Fault> {
    let answer = match (section.word, section.numbers.as_slice()) {
        ("added", []) => Answer::Added,
        ("there", []) => Answer::There,
        ("early", [count]) => Answer::Early(*count),
        ("told", [count]) => Answer::Told(*count),
        ("done", []) => Answer::Cut,
        ("behind", [node, clock]) => Answer::Behind {
            node: byte_of(*node)?,
            clock: *clock,
        },
        _ => return Ok(None),
    };
    Ok(Some(answer))
}

fn heard_as(status: u8, byte: u64, age: u64) -> Result<Answer, Fault> {
    Ok(Answer::Heard(Heard {
        status,
        byte: byte_of(byte)?,
        age: byte_of(age)?,
    }))
}

// The answer to a sample; `None` where the section is none.
fn to_sample(section: &Section<'_>) -> Result<Option<Answer>, Fault> {
    let answer = match (section.word, section.numbers.as_slice()) {
        ("halted", []) => Answer::Halted,
        ("quiet", []) => heard_as(0, 0, 0)?,
        ("byte", [byte, age]) => heard_as(1, *byte, *age)?,
        ("clash", [byte]) => heard_as(2, *byte, 0)?,
        ("waits", [node, clock]) => Answer::Waits {
            node: byte_of(*node)?,
            clock: *clock,
        },
        _ => return Ok(None),
    };
    Ok(Some(answer))
}

/// The answer that a file has; `None` where the section is none.
pub fn answer_of(section: &Section<'_>) -> Result<Option<Answer>, Fault> {
    if let Some(answer) = to_question(section) {
        return Ok(Some(answer));
    }
    match to_step(section)? {
        Some(answer) => Ok(Some(answer)),
        None => to_sample(section),
    }
}
