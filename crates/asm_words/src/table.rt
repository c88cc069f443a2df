// Tables of words, and what each means.
ghost use Rattle.std.specs.Prelude.{◌≡◌, map};
ghost use Rattle.asm_words.specs.Table.{found};

/// What the first row of a table gives that names a word.
pub fn find<F: Copy>(table: &[(&str, F)], name: &[u8]) -> Option<F>
    ensures { result ≡ found name.now (map (λ row. (row.0.now, row.1)) table.now) }
{
    for (word, form) in table {
        if name == word.as_bytes() {
            return Some(*form);
        }
    }
    None
}
