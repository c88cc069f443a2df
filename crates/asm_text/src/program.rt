// The program as far as the lines were read.
ghost use Rattle.std.specs.Prelude.{◌≡◌, ◌≤◌, ◌<◌, ◌+◌, ◌++◌, ◌⊎◌, length, IfErr, OnOk, IfOk};
ghost use Rattle.asm_words.specs.Line.{said};
ghost use Rattle.asm_words.specs.Labels.{label_at};
ghost use Rattle.asm_text.specs.Source.{ended, first_known, started, taken, words_of, Progress};

use crate::fault::{AsmFault, LineFault};
use crate::line::{behind, piece_of};
use asm_words::{Label, Line, Piece};
use std::alloc::{AllocError, Global};
use std::collections::BTreeMap;
use std::marker::Model;

/// What is done so far.
#[derive(Drop)]
pub struct Program {
    at: u32,
    far: Option<usize>,
    words: Vec<u16>,
}

impl Model for Program {
    ghost Value = { Progress };

    ghost view = { λ p. record { at = p.at; far = p.far; words = p.words.items } };

    ghost invariant = { λ p. (p.at ≤ 65536) × (length p.words.items ≤ p.at) };
}

fn push_piece(words: &mut Vec<u16>, piece: Option<Piece>) -> Result<(), AllocError>
    ensures words { OnOk result (words.new.items ≡ words.old.items ++ words_of piece) }
    ensures room { length words.new.items ≤ length words.old.items + length (words_of piece) }
{
    match piece {
        None => Ok(()),
        Some(piece) => match piece.second {
            None => words.extend_from_slice(&[piece.first]),
            Some(second) => words.extend_from_slice(&[piece.first, second]),
        },
    }
}

fn first_known(far: Option<usize>, line: usize) -> Option<usize>
    ensures { result ≡ first_known far line }
{
    match far {
        None => Some(line),
        Some(first) => Some(first),
    }
}

impl Program {
    /// Nothing yet.
    pub fn new(alloc: Global) -> Program
        ensures { result ≡ started }
    {
        Program {
            at: 0,
            far: None,
            words: Vec::new(alloc),
        }
    }

    /// Takes the line of this number, from 0.
    pub fn take<'t>(
        &mut self,
        labels: &BTreeMap<&'t [u8], Label>,
        index: usize,
        line: Line<'t>,
    ) -> Result<(), AsmFault>
        requires { index < usize.MAX }
        ensures ok { OnOk result (taken (label_at labels.now) index self.old (said line.entry) ≡ Ok self.new) }
        ensures err { IfErr result (λ e. (e ≡ AsmFault.NoMemory) ⊎ (taken (label_at labels.now) index self.old (said line.entry) ≡ Err e)) }
    {
        let next = behind(self.at, &line);
        match piece_of(labels, index, self.at, line) {
            Ok(piece) => {
                self.at = next;
                push_piece(&mut self.words, piece)?;
            }
            Err(LineFault::OutOfReach) => {
                self.at = next;
                self.far = first_known(self.far, index + 1);
            }
            Err(fault) => return Err(fault.at(index + 1)),
        }
        Ok(())
    }

    /// The words, where no line is out of reach.
    pub fn finish(self) -> Result<Vec<u16>, AsmFault>
        ensures ok { IfOk result (λ words. ended self.far self.words ≡ Ok words.items) }
        ensures err { IfErr result (λ e. (e ≡ AsmFault.NoMemory) ⊎ (ended self.far self.words ≡ Err e)) }
        ensures few { IfOk result (λ words. length words.items ≤ 65536) }
    {
        match self.far {
            None => Ok(self.words),
            Some(line) => Err(LineFault::OutOfReach.at(line)),
        }
    }
}
