// HT and VT: the searches among the stops where they stand, and the moves to them.
ghost use Rattle.std.specs.Prelude.{◌≡◌, ℕ, Bool, ◌<◌, ◌≤◌, ltb, take, option_to_list, ◌∷◌, []};
ghost use Rattle.printer.specs.Settings.{down_of, held_in, chosen_stops};
ghost use Rattle.printer.specs.Deciding.{line_from, form_inside, vertical_events, control_events};
ghost use Rattle.printer.specs.declared.commands.Command.{Command};
ghost use Rattle.printer.specs.declared.commands.Control.{Control};
ghost use Rattle.printer.specs.declared.state.Printer.{Printer};
ghost use Rattle.registers.specs.declared.pending.Pending.{Pending};
ghost use Rattle.registers.specs.Held.{Held};
ghost use Rattle.interpreter.specs.Doing.{Did, Does};
ghost use Rattle.interpreter.specs.Reaching.{reach};
ghost use Rattle.interpreter.specs.Searching.{Takes, first_from, column_at, is_ahead};

use crate::lines::{carriage_return, form_feed, line_feed, line_to};
use crate::moves::move_to;
use crate::output::{Reason, passed_record};
use crate::positions::{column_position, edge, reached};
use crate::settings::end_wide_once;
use printer::records::Record;
use printer::settings::Margins;
use printer::stops::Stop;
use printer::units::Units;
use registers::groups::margins_in;
use registers::{
    ACROSS, CHANNEL_COUNTS, CHANNEL_STOPS, CHOSEN, COLUMN_COUNT, COLUMN_STOPS, COLUMN_WIDTH, COUNT,
    DOWN, GATHERED_COUNT,
};

// A position, if it is right of the place and within the right margin.
fn ahead(across: Units, right: Units, to: u64) -> Option<Units>
    ensures { result ≡ reach (is_ahead across.0 right.0 to) to }
{
    reached(((across.0 as u64) < to) & (to <= right.0 as u64), to)
}

// The first of the stops that are held for which a search has a place. The count of a state that is not ours may be past the room.
fn first_stop<F: Fn(u32) -> Option<Units>>(stops: &[u32], count: u32, place_of: F) -> Option<Stop>
    requires { F.IsAlwaysCallable place_of }
    ensures { (position : ℕ → ℕ) (test : ℕ → Bool) → Takes (F.post place_of) position test
        → result ≡ first_from position test 1 (take count stops.now) }
{
    let held = (count as usize).min(stops.len());
    for (i, n) in stops[..held].iter().enumerate() {
        if let Some(place) = place_of(*n) {
            return Some(Stop {
                number: (i + 1) as u32,
                place,
            });
        }
    }
    None
}

// HT: the first stop right of the place and not past the right margin.
pub(crate) fn next_column(
    stops: &[u32],
    count: u32,
    margins: Margins,
    column: Units,
    across: Units,
) -> Option<Stop>
    ensures { result ≡ first_from (column_at margins.left.0 column.0) (is_ahead across.0 margins.right.0) 1 (take count stops.now) }
{
    first_stop(stops, count, |n| {
        ahead(
            across,
            margins.right,
            column_position(margins.left, column, n),
        )
    })
}

// VT: the first stop below the place.
pub(crate) fn next_line(stops: &[u32], count: u32, down: Units) -> Option<Stop>
    ensures { result ≡ first_from (λ n. n) (ltb down.0) 1 (take count stops.now) }
{
    first_stop(stops, count, |n| (down.0 < n).then_some(Units(n)))
}

// HT: to the next stop; passed over if there is none.
pub(crate) fn horizontal_tab(m: &mut [u32; COUNT], b: u8) -> Option<Record>
    ensures { Does (λ (p : Printer). control_events p Control.HorizontalTab b) m.old m.new (option_to_list result) }
{
    let count = m[COLUMN_COUNT];
    let column = Units(m[COLUMN_WIDTH]);
    let across = Units(m[ACROSS]);
    let margins = margins_in(&*m);
    let all = &m[..];
    let search = next_column(
        &all[COLUMN_STOPS..GATHERED_COUNT],
        count,
        margins,
        column,
        across,
    );
    let Some(Stop { place, .. }) = search else {
        return Some(passed_record(b, Reason::NoStop));
    };
    move_to(m, place);
    None
}

// VT as FF; SO ends first.
fn to_next_page(m: &mut [u32; COUNT]) -> Record
    ensures { (b : ℕ) → Does (λ (p : Printer). form_inside (Command.Control Control.VerticalTab b)) m.old m.new (result ∷ []) }
{
    end_wide_once(&mut *m);
    form_feed(m)
}

// VT among the stops of a channel: to the next one; if there is none, or it is at or past the edge, as FF.
fn to_next_stop(m: &mut [u32; COUNT], channel: usize, count: u32) -> Record
    requires channel_bound { channel < 8 }
    ensures { (b : ℕ) (p : Printer) (v : Pending) → Held p v m.old → channel ≡ p.stops.channels.chosen → count ≡ (chosen_stops p.stops).count
        → Did p v (vertical_events p (Command.Control Control.VerticalTab b) (line_from (down_of p.place) 1 (held_in (chosen_stops p.stops)))) m.new (result ∷ []) }
{
    let down = Units(m[DOWN]);
    let from = CHANNEL_STOPS + 16 * channel;
    let to = from + 16;
    let all = &m[..];
    let search = next_line(&all[from..to], count, down);
    let Some(Stop { place, .. }) = search else {
        return to_next_page(m);
    };
    let above = place.0 < edge(&*m).0;
    if above {
        return line_to(m, place, 0);
    }
    to_next_page(m)
}

// VT: as LF if the chosen channel was never set, as CR if it has no stops, else to the next one.
pub(crate) fn vertical_tab(m: &mut [u32; COUNT]) -> Option<Record>
    ensures { (b : ℕ) (p : Printer) (v : Pending) → Held p v m.old → p.stops.channels.chosen ≤ 7
        → Did p v (control_events p Control.VerticalTab b) m.new (option_to_list result) }
{
    let channel = (m[CHOSEN] % 8) as usize;
    let count = m[CHANNEL_COUNTS + channel];
    let never = count == 0;
    if never {
        end_wide_once(&mut *m);
        return Some(line_feed(m));
    }
    let stops = count - 1;
    let none = stops == 0;
    if none {
        end_wide_once(&mut *m);
        return carriage_return(m);
    }
    Some(to_next_stop(m, channel, stops))
}
