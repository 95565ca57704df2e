// Positions on the page: columns in units, and moves that stay between the margins or above the edge.
ghost use Rattle.std.specs.Prelude.{◌≡◌, ◌≤◌, true};
ghost use Rattle.printer.specs.Units.{units};
ghost use Rattle.printer.specs.Settings.{edge_of};
ghost use Rattle.printer.specs.declared.state.Printer.{Printer};
ghost use Rattle.registers.specs.declared.pending.Pending.{Pending};
ghost use Rattle.registers.specs.Held.{Held};
ghost use Rattle.interpreter.specs.Searching.{column_at};
ghost use Rattle.interpreter.specs.Reaching.{reach, rightward, leftward, downward};

use measures::lengths::times;
use measures::paper;
use printer::units::Units;
use registers::COUNT;
use registers::groups::paper_in;

// A column's position, counted from the left margin.
pub(crate) fn column_position(left: Units, width: Units, n: u32) -> u64
    ensures { result ≡ column_at left.0 width.0 n }
{
    left.0 as u64 + times(width, n)
}

// A position, if a test allows it.
pub(crate) fn reached(fits: bool, to: u64) -> Option<Units>
    requires { fits ≡ true → to ≤ 0xFFFFFFFF }
    ensures { result ≡ reach fits to }
{
    if fits {
        return Some(Units(to as u32));
    }
    None
}

// To the right, if that is not past the right margin.
pub(crate) fn rightward(from: Units, by: Units, right: Units) -> Option<Units>
    ensures { result ≡ rightward from.0 by.0 right.0 }
{
    let to = from.0 as u64 + by.0 as u64;
    reached(to <= right.0 as u64, to)
}

// To the left, if that is not past the left margin.
pub(crate) fn leftward(from: Units, by: Units, left: Units) -> Option<Units>
    ensures { result ≡ leftward from.0 by.0 left.0 }
{
    let least = left.0 as u64 + by.0 as u64;
    reached(least <= from.0 as u64, from.0.saturating_sub(by.0) as u64)
}

// Down the page, if that is above the edge.
pub(crate) fn downward(from: Units, by: Units, edge: Units) -> Option<Units>
    ensures { result ≡ downward from.0 by.0 edge.0 }
{
    let to = from.0 as u64 + by.0 as u64;
    reached(to < edge.0 as u64, to)
}

// The edge: page length less perforation skip.
pub(crate) fn edge(m: &[u32; COUNT]) -> Units
    ensures { (p : Printer) (v : Pending) → Held p v m.now → result ≡ units (edge_of p.settings) }
{
    paper::edge(paper_in(m))
}
