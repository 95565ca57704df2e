// ESC l and ESC Q: the margins.
ghost use Rattle.std.specs.Prelude.{◌≡◌, [], ◌∷◌};
ghost use Rattle.printer.specs.Records.{clear_record};
ghost use Rattle.printer.specs.Deciding.{attempt};
ghost use Rattle.printer.specs.declared.commands.Command.{Command};
ghost use Rattle.printer.specs.declared.state.Printer.{Printer};
ghost use Rattle.interpreter.specs.Outcome.{stepped};
ghost use Rattle.interpreter.specs.Doing.{Does};
ghost use Rattle.interpreter.specs.Reaching.{left_column, right_column};
ghost use Rattle.interpreter.specs.Leaving.{margins_set, Writes};

use crate::output::{Reason, clear_record, passed_record};
use crate::positions::reached;
use measures::lengths::times;
use printer::commands::Side;
use printer::records::Record;
use printer::units::Units;
use registers::{ACROSS, COLUMN_WIDTH, COUNT, LEFT, PAPER_WIDTH, RIGHT};

// So many columns as a left margin: below the right one.
fn left_column(width: Units, n: u8, right: Units) -> Option<Units>
    ensures { result ≡ left_column width.0 n right.0 }
{
    let to = times(width, n as u32);
    reached(to < right.0 as u64, to)
}

// So many columns as a right margin: above the left one, and on the paper.
fn right_column(width: Units, n: u8, left: Units, paper: Units) -> Option<Units>
    ensures { result ≡ right_column width.0 n left.0 paper.0 }
{
    let to = times(width, n as u32);
    reached(((left.0 as u64) < to) & (to <= paper.0 as u64), to)
}

// Other margins, and the place at the left one, with CL.
fn margins_set(m: &mut [u32; COUNT], left: Units, right: Units) -> Record
    ensures { Writes (λ (p : Printer). stepped (margins_set p left.0 right.0) (clear_record ∷ [])) m.old m.new (result ∷ []) }
{
    m[LEFT] = left.0;
    m[RIGHT] = right.0;
    m[ACROSS] = left.0;
    clear_record()
}

// ESC l.
fn left_margin(m: &mut [u32; COUNT], n: u8) -> Record
    ensures { Does (λ (p : Printer). attempt p (Command.Margin Side.Left n) 3 ∷ []) m.old m.new (result ∷ []) }
{
    let right = Units(m[RIGHT]);
    let Some(left) = left_column(Units(m[COLUMN_WIDTH]), n, right) else {
        return passed_record(b'l', Reason::PastLimits);
    };
    margins_set(m, left, right)
}

// ESC Q.
fn right_margin(m: &mut [u32; COUNT], n: u8) -> Record
    ensures { Does (λ (p : Printer). attempt p (Command.Margin Side.Right n) 3 ∷ []) m.old m.new (result ∷ []) }
{
    let left = Units(m[LEFT]);
    let paper = Units(m[PAPER_WIDTH]);
    let Some(right) = right_column(Units(m[COLUMN_WIDTH]), n, left, paper) else {
        return passed_record(b'Q', Reason::PastLimits);
    };
    margins_set(m, left, right)
}

// A margin set, or passed over.
pub(crate) fn margin(m: &mut [u32; COUNT], side: Side, n: u8) -> Record
    ensures { Does (λ (p : Printer). attempt p (Command.Margin side n) 3 ∷ []) m.old m.new (result ∷ []) }
{
    match side {
        Side::Left => left_margin(m, n),
        Side::Right => right_margin(m, n),
    }
}
