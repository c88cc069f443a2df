// A text that is cut at a byte.
ghost use Rattle.std.specs.Prelude.{◌≡◌, ◌==◌, ◌<◌, ◌∷◌, [], length, position, IfSome, IfNone};
ghost use Rattle.std.specs.List.{slice_split};
ghost use Rattle.std.specs.Str.{bytes_eq};

// Where a byte stands first in a text.
fn place_of(byte: u8, text: &[u8]) -> Option<usize>
    ensures value { result ≡ position (λ c. c == byte) text.now }
    ensures within { IfSome result (λ i. i < length text.now) }
{
    text.iter().position(|b| *b == byte)
}

/// What stands before the first such byte of a text, and what stands behind it.
pub fn cut(byte: u8, text: &[u8]) -> Option<(&[u8], &[u8])>
    ensures some { IfSome result (λ x. slice_split (λ c. c == byte) text.now ≡ x.0.now ∷ slice_split (λ c. c == byte) x.1.now) }
    ensures shorter { IfSome result (λ x. length x.1.now < length text.now) }
    ensures none { IfNone result (slice_split (λ c. c == byte) text.now ≡ text.now ∷ []) }
{
    match place_of(byte, text) {
        None => None,
        Some(i) => Some((&text[..i], &text[i + 1..])),
    }
}

/// Whether two texts are equal.
pub fn is_text(a: &[u8], b: &[u8]) -> bool
    ensures { result ≡ bytes_eq a.now b.now }
{
    a == b
}
