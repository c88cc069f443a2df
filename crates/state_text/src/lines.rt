// The lines of a text.
ghost use Rattle.std.specs.Prelude.{◌≡◌, ◌∷◌, [], Decides};
ghost use Rattle.state_text.specs.Reading.{Gives, next_line, place};
ghost use Rattle.state_text.specs.Parts.{pieces_of};

use crate::cuts::cut;
use crate::fault::StateFault;
use std::marker::Model;

/// The lines of a text that were not taken yet. A contract sees them as a `Place`.
#[derive(Drop)]
pub struct Lines<'a> {
    number: usize,
    rest: &'a [u8],
}

impl<'a> Model for Lines<'a> {
    ghost use Rattle.std.specs.Prelude.{◌+◌, ◌<◌, ◌^◌, ◌∷◌, [], length, Decides};
    ghost use Rattle.state_text.specs.Parts.{pieces_of};
    ghost use Rattle.state_text.specs.Reading.{Place, place};

    ghost Value = { Place };

    ghost view = { λ l. place l.number (pieces_of l.rest.now) };

    ghost invariant = { λ l. l.number + length l.rest.now < 2 ^ 64 };
}

impl<'a> Lines<'a> {
    /// All lines of a text.
    pub fn of(text: &'a [u8]) -> Lines<'a>
        ensures { result ≡ place 1 (pieces_of text.now) }
    {
        Lines {
            number: 1,
            rest: text,
        }
    }

    /// The number of the next line, from 1.
    pub fn number(&self) -> usize
        ensures { result ≡ self.now.number }
    {
        self.number
    }

    /// Takes the next line, without its LF.
    pub fn next_line(&mut self) -> Result<&'a [u8], StateFault>
        ensures { Gives (λ line. (line.now, self.new)) result (next_line self.old) }
    {
        match cut(b'\n', self.rest) {
            None => Err(StateFault::NotAState { line: self.number }),
            Some((line, rest)) => {
                self.rest = rest;
                self.number += 1;
                Ok(line)
            }
        }
    }

    /// Whether nothing is left.
    pub fn are_over(&self) -> bool
        ensures { Decides result (self.now.pieces ≡ [] ∷ []) }
    {
        self.rest.is_empty()
    }
}
