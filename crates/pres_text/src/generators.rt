//! The first two lines that say something: the header and the generators.

ghost use Rattle.std.specs.Prelude.{◌≡◌, [], IfSome, IfNone, OnOk, IsErrOf, IsOkUnless, Err};
ghost use Rattle.std.specs.Str.{IsAscii};
ghost use Rattle.nil_pres.specs.Presented.{with_name};
ghost use Rattle.nil_pres.specs.declared.name_fault.NameFault.{NameFault};
ghost use Rattle.nil_num.specs.Outcome.{Gives};
ghost use Rattle.pres_text.specs.declared.file_kind.FileKind.{FileKind};
ghost use Rattle.pres_text.specs.Lines.{words};
ghost use Rattle.pres_text.specs.FirstFault.{is_header, header_fault, name_fault, names_fault, generators_fault, names_of};
ghost use Rattle.pres_text.specs.Reading.{fault_place, name_fault_at, named};

use super::file_kind::FileKind;
use super::lines::Line;
use super::pres_fault::PresFault;
use super::words::{is_text, next_word};
use nil_pres::{Builder, NameFault};
use std::str;

/// Whether the words of a text are `nilpotent` and `1`.
fn is_header(text: &[u8]) -> bool
    ensures { result ≡ is_header (words text.now) }
{
    let Some((first, rest)) = next_word(text) else {
        return false;
    };
    let Some((second, rest)) = next_word(rest) else {
        return false;
    };
    next_word(rest).is_none() && first == b"nilpotent".as_slice() && second == b"1".as_slice()
}

/// The fault of the first line.
pub(super) fn header_fault(text: &[u8]) -> Option<FileKind>
    ensures { result ≡ header_fault text.now }
{
    if !is_text(text) {
        return Some(FileKind::NotText);
    }
    if !is_header(text) {
        return Some(FileKind::Header);
    }
    None
}

fn name_fault_at(line: u64, fault: NameFault) -> PresFault
    ensures { result ≡ name_fault_at line fault }
{
    match fault {
        NameFault::TooMany => PresFault::File {
            line,
            kind: FileKind::TooMany,
        },
        NameFault::Name => PresFault::File {
            line,
            kind: FileKind::Name,
        },
        NameFault::TwiceName => PresFault::File {
            line,
            kind: FileKind::TwiceName,
        },
        NameFault::Memory => PresFault::Memory,
    }
}

/// Adds a name.
fn add_word(builder: &mut Builder, line: u64, word: &[u8]) -> Result<(), PresFault>
    requires { IsAscii word.now }
    ensures fault { IfSome (name_fault builder.old.names word.now)
        (λ kind. IsErrOf result (PresFault.File line kind)) }
    ensures fine { IfNone (name_fault builder.old.names word.now)
        (IsOkUnless result PresFault.Memory) }
    ensures ok { OnOk result (builder.new ≡ with_name builder.old word.now) }
{
    let Ok(name) = str::from_utf8(word) else {
        unreachable!();
    };
    match builder.add_name(name) {
        Ok(_) => Ok(()),
        Err(fault) => Err(name_fault_at(line, fault)),
    }
}

/// Adds the words of a text as names.
fn add_words(builder: &mut Builder, line: u64, names: &[u8]) -> Result<(), PresFault>
    requires { IsAscii names.now }
    ensures fault { IfSome (names_fault builder.old.names (words names.now))
        (λ kind. Gives fault_place result (λ r. r ≡ Err (PresFault.File line kind))) }
    ensures fine { IfNone (names_fault builder.old.names (words names.now))
        (IsOkUnless result PresFault.Memory) }
    ensures ok { OnOk result (builder.new ≡ named builder.old (words names.now)) }
{
    let mut rest = names;
    'names: while let Some((word, more)) = next_word(rest) {
        add_word(builder, line, word)?;
        rest = more;
    }
    Ok(())
}

/// Adds the names of the second line.
pub(super) fn add_generators(builder: &mut Builder, line: &Line) -> Result<(), PresFault>
    requires { builder.old.names ≡ [] }
    ensures fault { IfSome (generators_fault line.now.text.now)
        (λ kind. Gives fault_place result
        (λ r. r ≡ Err (PresFault.File line.now.number kind))) }
    ensures fine { IfNone (generators_fault line.now.text.now)
        (IsOkUnless result PresFault.Memory) }
    ensures ok { OnOk result (builder.new ≡ named builder.old (names_of line.now.text.now)) }
{
    if !is_text(line.text) {
        return Err(PresFault::File {
            line: line.number,
            kind: FileKind::NotText,
        });
    }
    let Some((word, names)) = next_word(line.text) else {
        return Err(PresFault::File {
            line: line.number,
            kind: FileKind::Header,
        });
    };
    if word != b"generators".as_slice() || next_word(names).is_none() {
        return Err(PresFault::File {
            line: line.number,
            kind: FileKind::Header,
        });
    }
    add_words(builder, line.number, names)
}
