//! The pieces of a source.

ghost use Rattle.std.specs.Prelude.{◌≡◌, ℕ, ◌≤◌, List, [], take, IfOk, IfErr, IsErrOf, Err};
ghost use Rattle.nil_io.specs.Causes.{Rose};
ghost use Rattle.session_io.specs.Asked.{fed};
ghost use Rattle.session_io.specs.Answers.{by_reply, IsAnswered};
ghost use Rattle.session_io.specs.Reading.{IsRead};
ghost use Rattle.session_io.specs.Recalling.{IsRecalled};

use super::answering::answer_piece;
use super::end::End;
use super::held_line::HeldLine;
use super::replier::Replier;
use super::stop::Stop;
use nil_io::{Sink, Source};
use std::alloc::Global;

/// The greatest number of bytes that are read at once.
const PIECE: usize = 4096;

/// Reads a source up to its end, a fault or a limit of bytes. The lines that end in a piece are
/// answered before the next piece is read; what is behind them is held.
pub(crate) fn answer_pieces<T: Replier, S: Source, K: Sink>(
    alloc: Global,
    replier: &mut T,
    queries: &mut S,
    limit: u64,
    line: &mut HeldLine,
    out: &mut K,
) -> Result<End, Stop>
    requires { line.old ≡ [] }
    ensures ok { IfOk result (IsRead (T.reply replier.old)
        (λ lines. T.recalls replier.old [] → T.recalls replier.new lines) limit
        (fed (S.left queries.old) (S.left queries.new) (S.faults queries.old) (S.faults queries.new)
        (S.given queries.old) (S.given queries.new))
        line.new (K.written out.old) (K.written out.new)) }
    ensures err { IfErr result (λ stop. IsAnswered (by_reply (T.reply replier.old)) limit
        (fed (S.left queries.old) (S.left queries.new) (S.faults queries.old) (S.faults queries.new)
        (S.given queries.old) (S.given queries.new))
        (Err stop) (K.written out.old) (K.written out.new)) }
    ensures recalls { T.recalls replier.old [] → IfErr result (λ _. IsRecalled
        (T.recalls replier.new) limit
        (fed (S.left queries.old) (S.left queries.new) (S.faults queries.old) (S.faults queries.new)
        (S.given queries.old) (S.given queries.new))) }
    ensures same { T.reply replier.new ≡ T.reply replier.old }
    ensures later { K.faults out.old ≤ K.faults out.new }
    ensures cause { IsErrOf result Stop.Failed → Rose (K.faults out.old) (K.faults out.new) }
{
    let mut chunk = [0u8; PIECE];
    let mut room = limit;
    'reading: loop {
        let Ok(count) = queries.read(&mut chunk) else {
            return Ok(End::Failed);
        };
        if count == 0 {
            return Ok(End::Finished);
        }
        answer_piece(alloc, replier, line, within(&chunk[..count], room), out)?;
        if count as u64 > room {
            return Ok(End::Long);
        }
        room -= count as u64;
    }
}

/// The bytes of a piece within so many.
fn within(piece: &[u8], room: u64) -> &[u8]
    ensures { result.now ≡ take room piece.now }
{
    &piece[..piece.len().min(room as usize)]
}
