// Down the page: line feeds, form feeds, and CR, which may feed a line.
ghost use Rattle.std.specs.Prelude.{[], ◌∷◌, ◌≡◌, ◌+◌, ◌*◌, ◌/◌, option_to_list};
ghost use Rattle.printer.specs.Accepted.{Accepted};
ghost use Rattle.printer.specs.Settings.{edge_of, down_of};
ghost use Rattle.printer.specs.Performing.{done, inside, perform};
ghost use Rattle.printer.specs.Deciding.{pages_of_line, feed_after_return};
ghost use Rattle.printer.specs.declared.commands.Command.{Command};
ghost use Rattle.printer.specs.declared.commands.Control.{Control};
ghost use Rattle.printer.specs.declared.state.Printer.{Printer};
ghost use Rattle.registers.specs.declared.pending.Pending.{Pending};
ghost use Rattle.registers.specs.Held.{Held};
ghost use Rattle.interpreter.specs.Doing.{Did, Does};
ghost use Rattle.interpreter.specs.Reaching.{further_down};
ghost use Rattle.interpreter.specs.Leaving.{line_to, Writes};

use crate::moves::move_to;
use crate::output::feed_record;
use crate::positions::{downward, edge};
use crate::settings::end_wide_once;
use printer::records::Record;
use printer::units::Units;
use registers::{ACROSS, AUTO_FEED, COUNT, DOWN, LEFT, LINE};

// At the left margin, at a distance from the top, with LN; SO ends.
pub(crate) fn line_to(m: &mut [u32; COUNT], down: Units, pages: u8) -> Record
    ensures { Writes (λ (p : Printer). line_to p down.0 pages) m.old m.new (result ∷ []) }
{
    end_wide_once(&mut *m);
    m[ACROSS] = m[LEFT];
    m[DOWN] = down.0;
    feed_record(&*m, down, pages)
}

// LF: the line amount further down, or the top of a new page at the edge. Each line of text has one, so it is inlined.
#[inline(always)]
pub(crate) fn line_feed(m: &mut [u32; COUNT]) -> Record
    ensures { Does (λ (p : Printer). inside Control.LineFeed (pages_of_line p) ∷ []) m.old m.new (result ∷ []) }
{
    let Some(next) = downward(Units(m[DOWN]), Units(m[LINE]), edge(&*m)) else {
        return line_to(m, Units(0), 1);
    };
    line_to(m, next, 0)
}

// FF: the top of a new page.
pub(crate) fn form_feed(m: &mut [u32; COUNT]) -> Record
    ensures { Does (λ (p : Printer). inside Control.FormFeed 0 ∷ []) m.old m.new (result ∷ []) }
{
    line_to(m, Units(0), 1)
}

// CR: the left margin; then LF, if automatic line feed is set. It is inlined, since a record that a call gives back takes the caller's stack.
#[inline(always)]
pub(crate) fn carriage_return(m: &mut [u32; COUNT]) -> Option<Record>
    ensures { Does (λ (p : Printer). inside Control.CarriageReturn 0 ∷ feed_after_return (perform p (inside Control.CarriageReturn 0))) m.old m.new (option_to_list result) }
{
    let left = m[LEFT];
    move_to(&mut *m, Units(left));
    if m[AUTO_FEED] == 1 {
        return Some(line_feed(m));
    }
    None
}

// A distance from the top, and the pages turned on the way.
#[derive(Clone, Copy)]
struct Depth {
    down: Units,
    pages: u8,
}

// n/180 inch further down, over edges. (The edge of a state within its bounds is not the top, and two pages turn at most.)
fn further_down(down: Units, n: u8, edge: Units) -> Depth
    ensures { result ≡ further_down down.0 n edge.0 }
{
    if edge.0 == 0 {
        return Depth { down, pages: 0 };
    }
    let sum = down.0 as u64 + 20 * (n as u64);
    let length = edge.0 as u64;
    Depth {
        down: Units((sum % length) as u32),
        pages: (sum / length % 256) as u8,
    }
}

// ESC J: down by n/180 inch. In a state within its bounds it is what the rules do.
pub(crate) fn feed(m: &mut [u32; COUNT], n: u8) -> Record
    ensures { (p : Printer) (v : Pending) → Held p v m.old → Accepted p
        → Did p v (done (Command.Feed n) ((down_of p.place + 20 * n) / edge_of p.settings) ∷ []) m.new (result ∷ []) }
{
    let depth = further_down(Units(m[DOWN]), n, edge(&*m));
    let down = depth.down;
    m[DOWN] = down.0;
    feed_record(&*m, down, depth.pages)
}
