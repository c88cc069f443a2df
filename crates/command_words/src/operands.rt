// What stands behind the name of a command: files and numbers.
ghost use Rattle.std.specs.Prelude.{◌≡◌, ◌≤◌, IfSome};
ghost use Rattle.air_base.specs.Bounds.{LAST_CYCLE};
ghost use Rattle.air_base.specs.declared.bounds.TheConstants.{LAST_SHORT_CYCLE};
ghost use Rattle.std.specs.Char.{is_ascii_digit};
ghost use Rattle.std.specs.List.{list_all};
ghost use Rattle.command_words.specs.Words.{bound_of, cycles_of, epochs_of, is_file, number_of, sample_of, span_of};

use air_base::{LAST_CYCLE, LAST_SHORT_CYCLE};

/// The most epochs that a call names.
pub const MOST_EPOCHS: u64 = 9_999_999;

/// Whether a word names a file: it is not empty, and no option.
pub fn is_file(word: &str) -> bool
    ensures { result ≡ is_file word.now }
{
    match word.as_bytes() {
        [] => false,
        [first, ..] => *first != b'-',
    }
}

fn all_digits(word: &str) -> bool
    ensures { result ≡ list_all is_ascii_digit word.now }
{
    word.as_bytes().iter().all(|c| c.is_ascii_digit())
}

// The number from `least` to `most` that a word gives in one to `digits` decimal digits, with no sign.
#[tactic(auto, unfolding(crate::specs::Words::number_of))]
fn number(word: &str, digits: usize, least: u64, most: u64) -> Option<u64>
    requires { digits ≤ 13 }
    ensures value { result ≡ number_of digits least most word.now }
    ensures limits { IfSome result (λ n. (least ≤ n) × (n ≤ most)) }
{
    if word.is_empty() || word.len() > digits || !all_digits(word) {
        return None;
    }
    match word.parse::<u64>() {
        Ok(n) => {
            if n < least || n > most {
                return None;
            }
            Some(n)
        }
        Err(_) => None,
    }
}

/// The number of cycles that a word gives: one to eight decimal digits, no sign, from 1 to `LAST_SHORT_CYCLE`.
pub fn cycles(word: &str) -> Option<u64>
    ensures value { result ≡ cycles_of word.now }
    ensures limits { IfSome result (λ n. (1 ≤ n) × (n ≤ LAST_SHORT_CYCLE)) }
{
    number(word, 8, 1, LAST_SHORT_CYCLE)
}

/// The number of epochs that a word gives: one to seven decimal digits, no sign, from 1 to `MOST_EPOCHS`.
pub fn epochs(word: &str) -> Option<u64>
    ensures { result ≡ epochs_of word.now }
{
    number(word, 7, 1, MOST_EPOCHS)
}

/// The cycle that a word gives: one to thirteen decimal digits, no sign, at most 1,099,511,627,776.
pub fn bound(word: &str) -> Option<u64>
    ensures value { result ≡ bound_of word.now }
    ensures limits { IfSome result (λ n. n ≤ LAST_CYCLE) }
{
    number(word, 13, 0, LAST_CYCLE)
}

/// The span of cycles that two words give: each one to thirteen decimal digits, no sign, at most 1,099,511,627,776,
/// and the second not below the first.
#[tactic(auto, unfolding(crate::specs::Words::span_of))]
pub fn span(from: &str, to: &str) -> Option<(u64, u64)>
    ensures { result ≡ span_of from.now to.now }
{
    match (bound(from), bound(to)) {
        (Some(from), Some(to)) => {
            if from > to {
                return None;
            }
            Some((from, to))
        }
        _ => None,
    }
}

/// The number of a sample that a word gives: one to five decimal digits, no sign, at most 65,535.
pub fn sample(word: &str) -> Option<u16>
    ensures { result ≡ sample_of word.now }
{
    match number(word, 5, 0, 65_535) {
        Some(n) => Some(n as u16),
        None => None,
    }
}
