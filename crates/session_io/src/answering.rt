//! Lines to replies.

ghost use Rattle.std.specs.Prelude.{◌≡◌, ℕ, ◌≤◌, List, [], ◌∷◌, ◌++◌, OnOk, IfErr, IsErrOf};
ghost use Rattle.std.specs.Io.KnownBytes.{Appends};
ghost use Rattle.nil_io.specs.Causes.{Rose};
ghost use Rattle.session_io.specs.Answers.{replies_by, last_piece};
ghost use Rattle.session_io.specs.Holding.{held, IsHeld, AreAnswered};
ghost use Rattle.session_io.specs.Lines.{whole_lines, EndsAtLine};
ghost use Rattle.session_io.specs.Recalling.{last_line};
ghost use Rattle.session_io.specs.Stops.{IsStopped};

use super::end::End;
use super::held_line::HeldLine;
use super::putting::put_all;
use super::replier::Replier;
use super::stop::Stop;
use line_tokens::split_line;
use nil_io::Sink;
use std::alloc::Global;

/// Answers the lines that end in a piece, and holds what is behind them.
pub(crate) fn answer_piece<T: Replier, K: Sink>(
    alloc: Global,
    replier: &mut T,
    line: &mut HeldLine,
    piece: &[u8],
    out: &mut K,
) -> Result<(), Stop>
    ensures ok { (begun : List ℕ) → IsHeld begun line.old → OnOk result (AreAnswered
        (T.reply replier.old) (begun ++ piece.now) line.new (K.written out.old)
        (K.written out.new)) }
    ensures err { (begun : List ℕ) → IsHeld begun line.old → IfErr result (IsStopped
        (replies_by (T.reply replier.old) (whole_lines (begun ++ piece.now)))
        (K.written out.old) (K.written out.new)) }
    ensures same { T.reply replier.new ≡ T.reply replier.old }
    ensures recalls { (begun : List ℕ) (lines : List (List ℕ)) → IsHeld begun line.old
        → T.recalls replier.old lines
        → T.recalls replier.new (lines ++ whole_lines (begun ++ piece.now)) }
    ensures later { K.faults out.old ≤ K.faults out.new }
    ensures cause { IsErrOf result Stop.Failed → Rose (K.faults out.old) (K.faults out.new) }
{
    let mut rest = piece;
    'answering: loop {
        let (front, more) = split_line(rest);
        line.add(front);
        match more {
            None => return Ok(()),
            Some(next) => {
                answer_line(alloc, replier, line.bytes(), out)?;
                line.clear();
                rest = next;
            }
        }
    }
}

/// Answers the piece behind the last line feed, or writes the text of the end.
pub(crate) fn answer_last<T: Replier, K: Sink>(
    alloc: Global,
    replier: &mut T,
    rest: &HeldLine,
    end: End,
    out: &mut K,
) -> Result<(), Stop>
    ensures ok { (line : List ℕ) → rest.now ≡ held line → OnOk result (Appends
        (K.written out.old) (K.written out.new) (last_piece (T.reply replier.old) line end)) }
    ensures err { (line : List ℕ) → rest.now ≡ held line → IfErr result (IsStopped
        (last_piece (T.reply replier.old) line end) (K.written out.old) (K.written out.new)) }
    ensures recalls { (line : List ℕ) (lines : List (List ℕ)) → rest.now ≡ held line
        → T.recalls replier.old lines → T.recalls replier.new (lines ++ last_line line end) }
    ensures same { T.reply replier.new ≡ T.reply replier.old }
    ensures later { K.faults out.old ≤ K.faults out.new }
    ensures cause { IsErrOf result Stop.Failed → Rose (K.faults out.old) (K.faults out.new) }
{
    match end {
        End::Finished => answer_line(alloc, replier, rest.bytes(), out),
        End::Failed => put_all(out, b"read fault\n"),
        End::Long => put_all(out, b"long input\n"),
    }
}

/// Answers one line.
fn answer_line<T: Replier, K: Sink>(
    alloc: Global,
    replier: &mut T,
    line: &[u8],
    out: &mut K,
) -> Result<(), Stop>
    ensures ok { OnOk result (Appends (K.written out.old) (K.written out.new)
        (T.reply replier.old line.now)) }
    ensures at_line { OnOk result (EndsAtLine (T.reply replier.old line.now)) }
    ensures err { IfErr result (IsStopped (T.reply replier.old line.now)
        (K.written out.old) (K.written out.new)) }
    ensures same { T.reply replier.new ≡ T.reply replier.old }
    ensures recalls { (lines : List (List ℕ)) (whole : List ℕ) → line.now ≡ held whole
        → T.recalls replier.old lines → T.recalls replier.new (lines ++ whole ∷ []) }
    ensures later { K.faults out.old ≤ K.faults out.new }
    ensures cause { IsErrOf result Stop.Failed → Rose (K.faults out.old) (K.faults out.new) }
{
    let text = replier.reply_to(alloc, line)?;
    put_all(out, text.as_bytes())
}
