// The parts of a line.
ghost use Rattle.std.specs.Prelude.{◌≡◌, option_map};
ghost use Rattle.state_text.specs.Reading.{Gives, behind_word, behind_node, three_of};
ghost use Rattle.state_text.specs.Parts.{parts_of};
ghost use Rattle.state_text.specs.Shown.{IsNextPart};

use crate::cuts::{cut, is_text};
use crate::fault::StateFault;
use arrayvec::ArrayString;
use sim_io::put_decimal;
use std::marker::Model;

/// The parts of a line that were not taken yet.
/// A contract sees them as a list.
#[derive(Drop)]
pub struct Parts<'a> {
    rest: Option<&'a [u8]>,
}

impl<'a> Model for Parts<'a> {
    ghost use Rattle.std.specs.Prelude.{List, ℕ, option_map};
    ghost use Rattle.state_text.specs.Shown.{parts_left};

    ghost Value = { List (List ℕ) };

    ghost view = { λ p. parts_left (option_map (λ text. text.now) p.rest) };
}

impl<'a> Parts<'a> {
    /// All parts of a line.
    pub fn of(line: &'a [u8]) -> Parts<'a>
        ensures { result ≡ parts_of line.now }
    {
        Parts { rest: Some(line) }
    }

    /// Another reader of the parts that are left; this one takes none of them.
    pub fn again(&self) -> Parts<'a>
        ensures { result ≡ self.now }
    {
        Parts { rest: self.rest }
    }

    /// Takes the next part.
    pub fn next(&mut self) -> Option<&'a [u8]>
        ensures { IsNextPart self.old (option_map (λ part. part.now) result) self.new }
    {
        match self.rest {
            None => None,
            Some(text) => match cut(b' ', text) {
                None => {
                    self.rest = None;
                    Some(text)
                }
                Some((part, rest)) => {
                    self.rest = Some(rest);
                    Some(part)
                }
            },
        }
    }

    /// The only three parts that are left.
    pub fn three(mut self) -> Option<(&'a [u8], &'a [u8], &'a [u8])>
        ensures { option_map (λ x. (x.0.now, x.1.now, x.2.now)) result ≡ three_of self.entry }
    {
        let a = self.next()?;
        let b = self.next()?;
        let c = self.next()?;
        match self.next() {
            None => Some((a, b, c)),
            Some(_) => None,
        }
    }

    /// Takes a part that is this word.
    #[tactic(auto, unfolding(crate::specs::Reading::behind_word))]
    pub fn word(&mut self, number: usize, word: &[u8]) -> Result<(), StateFault>
        ensures { Gives (λ x. self.new) result (behind_word number word.now self.old) }
    {
        match self.next() {
            None => Err(StateFault::NotAState { line: number }),
            Some(part) => {
                if !is_text(part, word) {
                    return Err(StateFault::NotAState { line: number });
                }
                Ok(())
            }
        }
    }
}

/// The parts of a line behind a word and the number of a node.
#[tactic(auto, unfolding(crate::specs::Reading::behind_node))]
pub fn behind_node<'a>(
    number: usize,
    word: &[u8],
    node: u8,
    line: &'a [u8],
) -> Result<Parts<'a>, StateFault>
    ensures { Gives (λ parts. parts) result (behind_node number word.now node line.now) }
{
    let mut parts = Parts::of(line);
    parts.word(number, word)?;
    let mut text = ArrayString::<3>::new();
    put_decimal(node, &mut text);
    parts.word(number, text.as_str().as_bytes())?;
    Ok(parts)
}
