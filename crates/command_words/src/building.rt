// The parser that the words are split by.
ghost use Rattle.std.specs.Prelude.{◌≡◌, IfOk, false};
ghost use Rattle.clap.specs.Words.{app_of, rule_of};
ghost use Rattle.command_words.specs.Apps.{MakesLeaf, the_app};
ghost use Rattle.command_words.specs.Table.{form_app, rule_in};

use clap::{Arg, ArgAction, Command};
use std::alloc::{AllocError, Global};

// What stands behind the name of a command, with the id that it is read by.
#[derive(Clone, Copy)]
enum Word {
    // the id behind two hyphens, or nothing
    Flag(&'static str),
    // any word
    Required(&'static str),
    // any word, or none
    Optional(&'static str),
}

// One form of a command line.
#[derive(Clone, Copy)]
struct Form {
    name: &'static str,
    words: &'static [Word],
}

// The forms, but for `run` with and without its flag, which are one.
static FORMS: [Form; 14] = [
    Form {
        name: "node",
        words: &[Word::Required("file"), Word::Required("cycles")],
    },
    Form {
        name: "run",
        words: &[Word::Flag("plain"), Word::Required("file")],
    },
    Form {
        name: "make",
        words: &[Word::Required("number")],
    },
    Form {
        name: "monitor",
        words: &[
            Word::Required("file"),
            Word::Optional("from"),
            Word::Optional("to"),
        ],
    },
    Form {
        name: "sniff",
        words: &[Word::Required("file")],
    },
    Form {
        name: "look",
        words: &[
            Word::Required("file"),
            Word::Required("cycle"),
            Word::Optional("state"),
        ],
    },
    Form {
        name: "check",
        words: &[Word::Required("file")],
    },
    Form {
        name: "disasm",
        words: &[Word::Required("file")],
    },
    Form {
        name: "asm",
        words: &[Word::Required("file")],
    },
    Form {
        name: "head",
        words: &[
            Word::Required("file"),
            Word::Required("epochs"),
            Word::Optional("state"),
        ],
    },
    Form {
        name: "save",
        words: &[
            Word::Required("file"),
            Word::Required("epochs"),
            Word::Optional("state"),
        ],
    },
    Form {
        name: "resume",
        words: &[Word::Required("file"), Word::Required("state")],
    },
    Form {
        name: "sweep",
        words: &[
            Word::Required("file"),
            Word::Required("state"),
            Word::Required("moves"),
        ],
    },
    Form {
        name: "watch",
        words: &[
            Word::Required("file"),
            Word::Required("from"),
            Word::Required("to"),
            Word::Required("places"),
            Word::Optional("state"),
            Word::Optional("moves"),
        ],
    },
];

fn arg_of<'w>(alloc: Global, word: &Word) -> Arg<'w>
    ensures rule { rule_of result ≡ rule_in word.now }
    ensures local { result.global ≡ false }
{
    match *word {
        Word::Flag(id) => Arg::new(alloc, id).long(id).action(ArgAction::SetTrue),
        Word::Required(id) => Arg::new(alloc, id).required(true),
        Word::Optional(id) => Arg::new(alloc, id),
    }
}

fn subcommand_of<'w>(alloc: Global, form: &Form) -> Result<Command<'w>, AllocError>
    ensures { MakesLeaf (form_app form.now) result }
{
    let mut args = Vec::with_capacity(alloc, form.words.len())?;
    for word in form.words {
        args.push_reserved(arg_of(alloc, word));
    }
    Command::new(alloc, form.name).args(args)
}

/// One subcommand for each word that an accepted list begins with.
pub fn parser<'w>(alloc: Global) -> Result<Command<'w>, AllocError>
    ensures { IfOk result (λ c. app_of c ≡ the_app) }
{
    let mut subcommands = Vec::with_capacity(alloc, FORMS.len())?;
    for form in &FORMS {
        // by `?` a command would be moved thrice more, which costs a second of a check
        match subcommand_of(alloc, form) {
            Ok(subcommand) => subcommands.push_reserved(subcommand),
            Err(error) => return Err(error),
        }
    }
    Command::new(alloc, "avrora")
        .no_binary_name(true)
        .subcommands(subcommands)
}
