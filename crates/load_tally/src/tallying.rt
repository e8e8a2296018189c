//! Lines to counts.

ghost use Rattle.std.specs.Prelude.{◌≡◌, ◌+◌, ◌<◌, ◌^◌, OnOk, IfOk};
ghost use Rattle.nil_pres.specs.Presented.{IsPresented};
ghost use Rattle.hall_table.specs.Tabled.{IsTabled};
ghost use Rattle.hall_table.specs.Multiplies.{IsChecked};
ghost use Rattle.session_io.specs.Lines.{whole_lines};
ghost use Rattle.query_replies.specs.Replies.{reply_of};
ghost use Rattle.load_tally.specs.Tallies.{IsTally, tally_of};
ghost use Rattle.load_tally.specs.Steps.{IsWithin, IsOneMore};

use super::counts::Tally;
use super::laws::right_tallies;
use line_tokens::split_line;
use query_replies::Calculator;
use std::alloc::{AllocError, Global};

/// Counts the replies to the lines that end with a line feed.
pub fn tally(
    alloc: Global,
    calculator: &mut Calculator,
    queries: &[u8],
) -> Result<Tally, AllocError>
    ensures computed { IfOk result (λ t. t ≡ tally_of calculator.old (whole_lines queries.now)) }
    // By a table of level 1 that multiplies in its presentation these are the right ones.
    ensures right { IsPresented calculator.old.pres → IsTabled calculator.old.table
        → IsChecked calculator.old → calculator.old.table.level ≡ 1
        → IfOk result (IsTally calculator.old (whole_lines queries.now)) }
    ensures same { calculator.new ≡ calculator.old }
{
    right_tallies();
    let mut tally = Tally::new();
    let mut rest = queries;
    'counting: while let (line, Some(next)) = split_line(rest) {
        count_line(alloc, calculator, line, &mut tally)?;
        rest = next;
    }
    Ok(tally)
}

/// Counts the reply to one line.
fn count_line(
    alloc: Global,
    calculator: &mut Calculator,
    line: &[u8],
    tally: &mut Tally,
) -> Result<(), AllocError>
    requires few { tally.old.queries + 1 < 2 ^ 64 }
    requires within { IsWithin tally.old }
    ensures counted { OnOk result
        (IsOneMore tally.old tally.new (reply_of calculator.old line.now)) }
    ensures within { OnOk result (IsWithin tally.new) }
    ensures same { calculator.new ≡ calculator.old }
{
    let answer = calculator.reply_of(alloc, line)?;
    tally.count(&answer);
    Ok(())
}
