// Which words are accepted. Both tests are made, by `&` and not `&&`: a way round one costs more to prove than the
// test.
ghost use Rattle.std.specs.Prelude.{[], ◌≡◌, ◌∷◌, is_some, map};
ghost use Rattle.command_words.specs.Words.{asked_by};

use crate::operands::{bound, cycles, epochs, is_file, sample, span};

// Whether the word behind the name of a command that takes one is accepted.
fn is_pair(command: &str, word: &str) -> bool
    ensures { result ≡ is_some (asked_by (command.now ∷ word.now ∷ [])) }
{
    match command {
        "run" | "monitor" | "sniff" | "check" | "disasm" | "asm" => is_file(word),
        "make" => sample(word).is_some(),
        _ => false,
    }
}

// Whether the words behind the name of a command that takes two are accepted.
fn is_triple(command: &str, first: &str, second: &str) -> bool
    ensures { result ≡ is_some (asked_by (command.now ∷ first.now ∷ second.now ∷ [])) }
{
    match command {
        "node" => is_file(first) & cycles(second).is_some(),
        "run" => (first == "--plain") & is_file(second),
        "head" | "save" => is_file(first) & epochs(second).is_some(),
        "resume" => is_file(first) & is_file(second),
        "look" => is_file(first) & bound(second).is_some(),
        _ => false,
    }
}

// Whether the words behind the name of a command that takes three are accepted.
fn is_quadruple(command: &str, first: &str, second: &str, third: &str) -> bool
    ensures { result ≡ is_some (asked_by (command.now ∷ first.now ∷ second.now ∷ third.now ∷ [])) }
{
    match command {
        "head" | "save" => is_file(first) & is_file(third) & epochs(second).is_some(),
        "monitor" => is_file(first) & span(second, third).is_some(),
        "sweep" => is_file(first) & is_file(second) & is_file(third),
        "look" => is_file(first) & is_file(third) & bound(second).is_some(),
        _ => false,
    }
}

// Whether the words behind the name of a command that takes four are accepted.
fn is_quintuple(command: &str, file: &str, from: &str, to: &str, places: &str) -> bool
    ensures { result ≡ is_some (asked_by (command.now ∷ file.now ∷ from.now ∷ to.now ∷ places.now ∷ [])) }
{
    (command == "watch") & is_file(file) & is_file(places) & span(from, to).is_some()
}

// Whether the words behind the name of a command that takes five are accepted.
fn is_sextuple(command: &str, file: &str, from: &str, to: &str, places: &str, state: &str) -> bool
    ensures { result ≡ is_some (asked_by (command.now ∷ file.now ∷ from.now ∷ to.now ∷ places.now ∷ state.now ∷ [])) }
{
    (command == "watch")
        & is_file(file)
        & is_file(places)
        & is_file(state)
        & span(from, to).is_some()
}

// Whether the words behind the name of a command that takes six are accepted.
fn is_septuple(
    command: &str,
    file: &str,
    from: &str,
    to: &str,
    places: &str,
    state: &str,
    moves: &str,
) -> bool
    ensures { result ≡ is_some (asked_by (command.now ∷ file.now ∷ from.now ∷ to.now ∷ places.now ∷ state.now ∷ moves.now ∷ [])) }
{
    (command == "watch")
        & is_file(file)
        & is_file(places)
        & is_file(state)
        & is_file(moves)
        & span(from, to).is_some()
}

/// Whether the words after the program's name are accepted.
pub fn is_accepted(words: &[&str]) -> bool
    ensures { result ≡ is_some (asked_by (map (λ w. w.now) words.now)) }
{
    match words {
        [command, word] => is_pair(command, word),
        [command, first, second] => is_triple(command, first, second),
        [command, first, second, third] => is_quadruple(command, first, second, third),
        [command, file, from, to, places] => is_quintuple(command, file, from, to, places),
        [command, file, from, to, places, state] => {
            is_sextuple(command, file, from, to, places, state)
        }
        [command, file, from, to, places, state, moves] => {
            is_septuple(command, file, from, to, places, state, moves)
        }
        _ => false,
    }
}
