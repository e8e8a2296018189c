//! Relation lines: all that say something from the third on.

ghost use Rattle.std.specs.Prelude.{◌≡◌, ◌==◌, ◌≤◌, length, IfSome, IfNone, OnOk, IsErrOf, IsOkUnless, Err};
ghost use Rattle.std.specs.List.{list_any};
ghost use Rattle.nil_pres.specs.Rights.{AreUpTo};
ghost use Rattle.nil_num.specs.Outcome.{Gives};
ghost use Rattle.pres_text.specs.Lines.{lines, content_from};
ghost use Rattle.pres_text.specs.Seen.{spelled_seen, line_seen};
ghost use Rattle.pres_text.specs.Reading.{fault_place, relation_fault_at, has_unknown_number, clipped_fault, with_clipped, drafted_fault, with_line, rest_fault, related};

use super::file_kind::FileKind;
use super::lines::{Line, Lines};
use super::pres_fault::PresFault;
use super::relation_words::RelationWords;
use super::spelling::{SpelledRelation, spelled};
use super::words::is_text;
use line_tokens::cut;
use nil_pres::{Builder, RelationFault, Syllable};
use std::alloc::Global;

fn relation_fault_at(line: u64, fault: RelationFault) -> PresFault
    ensures { result ≡ relation_fault_at line fault }
{
    match fault {
        RelationFault::Order => PresFault::File {
            line,
            kind: FileKind::Order,
        },
        RelationFault::Twice => PresFault::File {
            line,
            kind: FileKind::Twice,
        },
        RelationFault::Above(_) => PresFault::File {
            line,
            kind: FileKind::Above,
        },
        RelationFault::Number(_) => PresFault::File {
            line,
            kind: FileKind::Number,
        },
        RelationFault::Zero(_) => PresFault::File {
            line,
            kind: FileKind::Zero,
        },
        RelationFault::Memory => PresFault::Memory,
    }
}

fn has_zero(right: &[Syllable]) -> bool
    ensures { result ≡ list_any (λ s. s.number == 0) right.now }
{
    right.iter().any(|syllable| syllable.number == 0)
}

/// Whether some name of a relation is no generator.
fn has_unknown(relation: &SpelledRelation) -> bool
    ensures { result ≡ has_unknown_number (spelled_seen relation.now) }
{
    relation.above == 0 || relation.below == 0 || has_zero(relation.right.as_slice())
}

/// Adds a relation.
fn add_relation(
    builder: &mut Builder,
    line: u64,
    relation: &SpelledRelation,
) -> Result<(), PresFault>
    requires above { relation.now.above ≤ length builder.old.names }
    requires below { relation.now.below ≤ length builder.old.names }
    requires right { AreUpTo (length builder.old.names) relation.now.right.items }
    ensures fault { IfSome (clipped_fault line builder.old (spelled_seen relation.now))
        (λ f. IsErrOf result f) }
    ensures fine { IfNone (clipped_fault line builder.old (spelled_seen relation.now))
        (IsOkUnless result PresFault.Memory) }
    ensures ok { OnOk result (builder.new ≡ with_clipped builder.old (spelled_seen relation.now)) }
{
    if has_unknown(relation) {
        return Err(PresFault::File {
            line,
            kind: FileKind::Name,
        });
    }
    match builder.add_relation(relation.above, relation.below, relation.right.as_slice()) {
        Ok(()) => Ok(()),
        Err(fault) => Err(relation_fault_at(line, fault)),
    }
}

/// Adds the relation of a line.
fn add_line(alloc: Global, builder: &mut Builder, line: &Line) -> Result<(), PresFault>
    ensures fault { IfSome (drafted_fault builder.old (line_seen line.now))
        (λ f. Gives fault_place result (λ r. r ≡ Err f)) }
    ensures fine { IfNone (drafted_fault builder.old (line_seen line.now))
        (IsOkUnless result PresFault.Memory) }
    ensures ok { OnOk result (builder.new ≡ with_line builder.old (line_seen line.now)) }
{
    if !is_text(line.text) {
        return Err(PresFault::File {
            line: line.number,
            kind: FileKind::NotText,
        });
    }
    let tokens = cut(alloc, &RelationWords { builder: &*builder }, line.text)?;
    match spelled(alloc, tokens.as_slice())? {
        None => Err(PresFault::File {
            line: line.number,
            kind: FileKind::Relation,
        }),
        Some(relation) => add_relation(builder, line.number, &relation),
    }
}

/// Adds the relations of the lines that are left.
pub(super) fn add_lines(
    alloc: Global,
    builder: &mut Builder,
    left: &mut Lines,
) -> Result<(), PresFault>
    ensures fault { IfSome (rest_fault builder.old
        (content_from left.old.number (lines left.old.rest.now)))
        (λ f. Gives fault_place result (λ r. r ≡ Err f)) }
    ensures fine { IfNone (rest_fault builder.old
        (content_from left.old.number (lines left.old.rest.now)))
        (IsOkUnless result PresFault.Memory) }
    ensures ok { OnOk result (builder.new ≡ related builder.old
        (content_from left.old.number (lines left.old.rest.now))) }
{
    'lines: while let Some(line) = left.next_content() {
        add_line(alloc, builder, &line)?;
    }
    Ok(())
}
