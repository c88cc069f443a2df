// The lines of a source, and its labels.
ghost use Rattle.std.specs.Prelude.{◌≡◌, ◌==◌, ◌+◌, ◌∷◌, ℕ, List, IfOk, OnOk, map};
ghost use Rattle.std.specs.List.{slice_split};
ghost use Rattle.asm_words.specs.Line.{Said, line_of, said};
ghost use Rattle.asm_words.specs.Labels.{label_at};
ghost use Rattle.asm_text.specs.Source.{behind, label_in, or_else};

use crate::line::behind;
use asm_words::{Label, Line, add_label, read_line};
use std::alloc::{AllocError, Global};
use std::collections::BTreeMap;

/// What stands between the LFs.
pub fn pieces_of(alloc: Global, text: &[u8]) -> Result<Vec<&[u8]>, AllocError>
    ensures { IfOk result (λ pieces. map (λ p. p.now) pieces.items ≡ slice_split (λ b. b == 10) text.entry.now) }
{
    text.split(|b| *b == b'\n').collect(alloc)
}

// Adds the label of a line that has one, where no earlier line has it.
#[tactic(auto, using(crate::proofs::Labels::label_steps))]
fn note_label<'t>(
    labels: &mut BTreeMap<&'t [u8], Label>,
    index: usize,
    at: u32,
    line: Line<'t>,
) -> Result<(), AllocError>
    ensures { OnOk result ((rest : List Said) (name : List ℕ) → or_else (label_at labels.old name) (label_in index at (said line.entry ∷ rest) name) ≡ or_else (label_at labels.new name) (label_in (index + 1) (behind at (said line.entry)) rest name)) }
{
    match line {
        Line::Empty => Ok(()),
        Line::Instruction(_) => Ok(()),
        Line::NotALine => Ok(()),
        Line::Label(name) => {
            let label = Label {
                line: index,
                address: at,
            };
            add_label(labels, name, label)
        }
    }
}

/// The labels of the lines, each where it stands first.
pub fn labels_of<'t>(
    alloc: Global,
    pieces: &[&'t [u8]],
) -> Result<BTreeMap<&'t [u8], Label>, AllocError>
    ensures { IfOk result (λ labels. (name : List ℕ) → label_at labels name ≡ label_in 0 0 (map (λ p. line_of p.now) pieces.now) name) }
{
    let mut labels = BTreeMap::new(alloc);
    let mut at = 0u32;
    for (i, piece) in pieces.iter().enumerate() {
        let line = read_line(piece);
        note_label(&mut labels, i, at, line)?;
        at = behind(at, &line);
    }
    Ok(labels)
}
