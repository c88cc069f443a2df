// Pieces of a line's text.
ghost use Rattle.std.specs.Prelude.{◌≡◌, ◌≤◌, ◌<◌, ◌==◌, true, not, length, position, IfSome};
ghost use Rattle.std.specs.List.{list_all};
ghost use Rattle.asm_words.specs.Text.{is_blank, is_printed, is_letter, is_word_byte, is_label, is_upper_digit, upper_digit, without_cr, without_comment, trim_start, trim_end, address_of};

/// A space or a tab.
pub fn is_blank(b: u8) -> bool
    ensures { result ≡ is_blank b }
{
    b == b' ' || b == b'\t'
}

/// A byte that a line may have: a tab, a space or a visible ASCII character.
pub fn is_printed(b: u8) -> bool
    ensures { result ≡ is_printed b }
{
    b == b'\t' || (b >= b' ' && b <= b'~')
}

fn is_letter(b: u8) -> bool
    ensures { result ≡ is_letter b }
{
    b.is_ascii_alphabetic() || b == b'_'
}

fn is_word_byte(b: u8) -> bool
    ensures { result ≡ is_word_byte b }
{
    is_letter(b) || b.is_ascii_digit()
}

fn is_word(text: &[u8]) -> bool
    ensures { result ≡ list_all is_word_byte text.now }
{
    text.iter().all(|b| is_word_byte(*b))
}

/// Whether a text is a label: a letter or `_`, then letters, digits and `_`, at most 31 in all.
#[tactic(auto, unfolding(crate::specs::Text::is_label))]
pub fn is_label(text: &[u8]) -> bool
    ensures { result ≡ is_label text.now }
{
    match text {
        [first, ..] => is_letter(*first) && text.len() <= 31 && is_word(text),
        [] => false,
    }
}

/// The line without one CR at its end.
pub fn without_cr(text: &[u8]) -> &[u8]
    ensures { result.now ≡ without_cr text.now }
{
    match text {
        [front @ .., b'\r'] => front,
        _ => text,
    }
}

/// Where a byte stands first in a text.
pub fn place_of(byte: u8, text: &[u8]) -> Option<usize>
    ensures value { result ≡ position (λ c. c == byte) text.now }
    ensures within { IfSome result (λ i. i < length text.now) }
{
    text.iter().position(|b| *b == byte)
}

/// Where a text has its first blank.
pub fn place_of_blank(text: &[u8]) -> Option<usize>
    ensures value { result ≡ position is_blank text.now }
    ensures within { IfSome result (λ i. i < length text.now) }
{
    text.iter().position(|b| is_blank(*b))
}

// Where a text has its first byte that is no blank.
fn place_of_visible(text: &[u8]) -> Option<usize>
    ensures value { result ≡ position (λ c. not (is_blank c)) text.now }
    ensures within { IfSome result (λ i. i < length text.now) }
{
    text.iter().position(|b| !is_blank(*b))
}

/// The line before its first `;`.
#[tactic(auto, unfolding(crate::specs::Text::without_comment))]
pub fn without_comment(text: &[u8]) -> &[u8]
    ensures { result.now ≡ without_comment text.now }
{
    match place_of(b';', text) {
        Some(i) => &text[..i],
        None => text,
    }
}

/// The text from its first byte on that is not blank.
#[tactic(auto, unfolding(crate::specs::Text::trim_start))]
pub fn trim_start(text: &[u8]) -> &[u8]
    ensures { result.now ≡ trim_start text.now }
{
    match place_of_visible(text) {
        Some(i) => &text[i..],
        None => &[],
    }
}

/// The text up to its last byte that is not blank.
#[tactic(auto, unfolding(crate::specs::Text::trim_end))]
pub fn trim_end(text: &[u8]) -> &[u8]
    ensures { result.now ≡ trim_end text.now }
{
    let mut n = text.len();
    while n > 0 && is_blank(text[n - 1]) {
        n -= 1;
    }
    &text[..n]
}

fn is_upper_digit(b: u8) -> bool
    ensures { result ≡ is_upper_digit b }
{
    b.is_ascii_digit() || (b >= b'A' && b <= b'F')
}

fn upper_digit(b: u8) -> u16
    requires { is_upper_digit b ≡ true }
    ensures value { result ≡ upper_digit b }
    ensures small { result ≤ 15 }
{
    if b < b':' {
        u16::from(b - b'0')
    } else {
        u16::from(b - b'A') + 10
    }
}

/// The word address that a line names: four upper-case hexadecimal digits with a space behind them.
#[tactic(auto, unfolding(crate::specs::Text::address_of))]
pub fn address(text: &[u8]) -> Option<u16>
    ensures value { result ≡ address_of text.now }
    ensures long { IfSome result (λ a. 5 ≤ length text.now) }
{
    match text {
        [a, b, c, d, e, ..] => {
            let all_digits = is_upper_digit(*a)
                && is_upper_digit(*b)
                && is_upper_digit(*c)
                && is_upper_digit(*d);
            if !all_digits || *e != b' ' {
                return None;
            }
            Some(
                4096 * upper_digit(*a)
                    + 256 * upper_digit(*b)
                    + 16 * upper_digit(*c)
                    + upper_digit(*d),
            )
        }
        _ => None,
    }
}
