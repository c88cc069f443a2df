// The words of the command line.
ghost use Rattle.std.specs.Prelude.{◌≡◌, IfOk, map, string_bytes};

use std::alloc::{AllocError, Global};
use std::env::{self, Env};

// The words as the top call takes them: the same, in their order.
fn borrowed<'w>(alloc: Global, owned: &'w [String]) -> Result<Vec<&'w str>, AllocError>
    ensures { IfOk result (λ words. map (λ w. w.now) words.items ≡ map string_bytes owned.entry.now) }
{
    let mut words = Vec::new(alloc);
    for word in owned {
        words.push(word.as_str())?;
    }
    Ok(words)
}

/// The words after the program's name; `None` where they cannot be had: for want of memory, or where one is no UTF-8.
/// They are there for as long as the process runs, so nobody has to let go of them.
pub fn words_given<V: Env>(env: &V, alloc: Global) -> Option<&'static [&'static str]> {
    let owned: Vec<String> = env::args(&(env, alloc)).ok()?.skip(1).collect(alloc).ok()?;
    let words = borrowed(alloc, owned.leak()).ok()?;
    Some(words.leak())
}
