// The labels of a source.
ghost use Rattle.std.specs.Prelude.{◌≡◌, ℕ, List, IfOk, OnOk, if◌then◌else◌};
ghost use Rattle.std.specs.Str.{bytes_eq};
ghost use Rattle.asm_words.specs.Labels.{label_at, kept};

use std::alloc::AllocError;
use std::collections::BTreeMap;

/// Where a label stands first.
#[derive(Clone, Copy)]
pub struct Label {
    /// Its line, from 0.
    pub line: usize,
    /// The word address of what follows it.
    pub address: u32,
}

/// Where the label of this name stands first.
pub fn find_label<'t>(labels: &BTreeMap<&'t [u8], Label>, name: &'t [u8]) -> Option<Label>
    ensures { result ≡ label_at labels.now name.now }
{
    labels.get(&name).copied()
}

/// Adds a label, where there is none of this name yet.
pub fn add_label<'t>(
    labels: &mut BTreeMap<&'t [u8], Label>,
    name: &'t [u8],
    label: Label,
) -> Result<(), AllocError>
    ensures { OnOk result ((q : List ℕ) → label_at labels.new q ≡ (if bytes_eq name.now q then kept (label_at labels.old q) label else label_at labels.old q)) }
{
    match find_label(labels, name) {
        Some(_) => Ok(()),
        None => {
            labels.insert(name, label)?;
            Ok(())
        }
    }
}
