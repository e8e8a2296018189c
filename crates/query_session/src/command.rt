//! The commands, by their words.

ghost use Rattle.std.specs.Prelude.{◌≡◌, map, string_bytes, option_map};
ghost use Rattle.session_io.specs.Asked.{texts};
ghost use Rattle.query_session.specs.Commands.{named_by, command_of, run_of, check_of, compile_of, trees_of, collect_of, kind_of, sized, example_of, loaded, load_of, seen};

use super::example_kind::ExampleKind;
use super::numbers::number_of;
use super::words::Words;

/// What is to be done.
#[derive(Clone, Copy)]
pub(crate) enum Command<'a> {
    /// Query lines are answered over a presentation.
    Run { pres: &'a str },
    /// They are answered by a table of it, which is checked.
    RunTable { pres: &'a str, table: &'a str },
    /// What the compile of a presentation says is written.
    Check { pres: &'a str },
    /// The table is written that it compiles to.
    Compile { pres: &'a str },
    /// The least trees of a generator are written, and their polynomial.
    Trees { pres: &'a str, name: &'a str },
    /// Query lines are answered by the collector.
    Collect { pres: &'a str },
    /// An example of a size is written.
    Example { kind: ExampleKind, size: u64 },
    /// Lines that are made up are answered over matrices with so many rows, and the replies counted.
    Load { rows: u64, count: u64, seed: u64 },
}

/// The command that the words ask for; none where they fit no form.
pub(crate) fn command_of(words: &Words) -> Option<Command<'_>>
    ensures { option_map seen result ≡ command_of (texts words.now.items) }
{
    match words.items.as_slice() {
        [word, names @ ..] => named_by(word, names),
        [] => None,
    }
}

/// The command that a word names, by the words behind it.
fn named_by<'a>(word: &str, names: &'a [String]) -> Option<Command<'a>>
    ensures { option_map seen result ≡ named_by word.now (map string_bytes names.now) }
{
    match word {
        "run" => run_of(names),
        "check" => check_of(names),
        "compile" => compile_of(names),
        "trees" => trees_of(names),
        "collect" => collect_of(names),
        "example" => example_of(names),
        "load" => load_of(names),
        _ => None,
    }
}

/// The forms of `run`.
fn run_of(names: &[String]) -> Option<Command<'_>>
    ensures { option_map seen result ≡ run_of (map string_bytes names.now) }
{
    match names {
        [pres] => Some(Command::Run {
            pres: pres.as_str(),
        }),
        [pres, table] => Some(Command::RunTable {
            pres: pres.as_str(),
            table: table.as_str(),
        }),
        _ => None,
    }
}

/// The form of `check`.
fn check_of(names: &[String]) -> Option<Command<'_>>
    ensures { option_map seen result ≡ check_of (map string_bytes names.now) }
{
    match names {
        [pres] => Some(Command::Check {
            pres: pres.as_str(),
        }),
        _ => None,
    }
}

/// The form of `compile`.
fn compile_of(names: &[String]) -> Option<Command<'_>>
    ensures { option_map seen result ≡ compile_of (map string_bytes names.now) }
{
    match names {
        [pres] => Some(Command::Compile {
            pres: pres.as_str(),
        }),
        _ => None,
    }
}

/// The form of `trees`.
fn trees_of(names: &[String]) -> Option<Command<'_>>
    ensures { option_map seen result ≡ trees_of (map string_bytes names.now) }
{
    match names {
        [pres, name] => Some(Command::Trees {
            pres: pres.as_str(),
            name: name.as_str(),
        }),
        _ => None,
    }
}

/// The form of `collect`.
fn collect_of(names: &[String]) -> Option<Command<'_>>
    ensures { option_map seen result ≡ collect_of (map string_bytes names.now) }
{
    match names {
        [pres] => Some(Command::Collect {
            pres: pres.as_str(),
        }),
        _ => None,
    }
}

/// The form of `example`.
fn example_of(names: &[String]) -> Option<Command<'_>>
    ensures { option_map seen result ≡ example_of (map string_bytes names.now) }
{
    match names {
        [kind, size] => sized(kind_of(kind), number_of(size)),
        _ => None,
    }
}

/// The example of a kind and a size.
fn sized<'a>(kind: Option<ExampleKind>, size: Option<u64>) -> Option<Command<'a>>
    ensures { option_map seen result ≡ sized kind size }
{
    match (kind, size) {
        (Some(kind), Some(size)) => Some(Command::Example { kind, size }),
        _ => None,
    }
}

fn kind_of(word: &str) -> Option<ExampleKind>
    ensures { result ≡ kind_of word.now }
{
    match word {
        "unitri" => Some(ExampleKind::Unitriangular),
        "free2" => Some(ExampleKind::FreeClassTwo),
        _ => None,
    }
}

/// The form of `load`.
fn load_of(names: &[String]) -> Option<Command<'_>>
    ensures { option_map seen result ≡ load_of (map string_bytes names.now) }
{
    match names {
        [rows, count, seed] => loaded(number_of(rows), number_of(count), number_of(seed)),
        _ => None,
    }
}

/// The load of three numbers.
fn loaded<'a>(rows: Option<u64>, count: Option<u64>, seed: Option<u64>) -> Option<Command<'a>>
    ensures { option_map seen result ≡ loaded rows count seed }
{
    match (rows, count, seed) {
        (Some(rows), Some(count), Some(seed)) => Some(Command::Load { rows, count, seed }),
        _ => None,
    }
}
