// The kinds of values. Each test is made, by `&`, as in `rules.rt`.
ghost use Rattle.std.specs.Prelude.{◌≡◌, map};
ghost use Rattle.toml.specs.View.{view};
ghost use Rattle.scenario_file.specs.Document.{on_array};
ghost use Rattle.scenario_file.specs.Rules.{are_two, is_two, all_two};

use toml::Value;

fn are_two(values: &[Value]) -> bool
    ensures { result ≡ are_two (map view values.now) }
{
    match values {
        [first, second] => first.is_integer() & second.is_integer(),
        _ => false,
    }
}

/// Whether it is an array of two whole numbers.
pub fn is_two(value: &Value) -> bool
    ensures { result ≡ is_two (view value.now) }
{
    match value.as_array() {
        Some(values) => are_two(values.as_slice()),
        None => false,
    }
}

fn all_two(values: &[Value]) -> bool
    ensures { result ≡ all_two (map view values.now) }
{
    values.iter().all(is_two)
}

/// Whether it is an array of arrays of two whole numbers.
pub fn is_array_of_two(value: &Value) -> bool
    ensures { result ≡ on_array all_two (view value.now) }
{
    match value.as_array() {
        Some(values) => all_two(values.as_slice()),
        None => false,
    }
}
