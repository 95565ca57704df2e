// ESC D, ESC B and ESC b: the lists that set tab stops.
ghost use Rattle.std.specs.Prelude.{◌≡◌, true, [], ◌∷◌, ◌+◌, ◌<◌, ◌≤◌, leb, ltb, set, option_to_list};
ghost use Rattle.printer.specs.Tools.{both, holds};
ghost use Rattle.printer.specs.PowerOn.{no_stops};
ghost use Rattle.printer.specs.Performing.{with_parts, stops_of, gathering, stop_of, with_channel, list_ended};
ghost use Rattle.printer.specs.Deciding.{most_stops, stop_place, attempt};
ghost use Rattle.printer.specs.Settings.{column_of};
ghost use Rattle.printer.specs.declared.commands.Command.{Command};
ghost use Rattle.printer.specs.declared.commands.Listing.{Listing};
ghost use Rattle.printer.specs.declared.commands.ListPart.{ListPart};
ghost use Rattle.printer.specs.declared.state.Printer.{Printer};
ghost use Rattle.registers.specs.declared.pending.Pending.{Pending};
ghost use Rattle.registers.specs.Register.{gathered_count_at, gathered_stops_at};
ghost use Rattle.registers.specs.Layout.{words};
ghost use Rattle.registers.specs.Held.{Held};
ghost use Rattle.interpreter.specs.Doing.{Leaves, Does};
ghost use Rattle.interpreter.specs.Gathering.{Gathered};
ghost use Rattle.interpreter.specs.Searching.{column_at};

use crate::output::{Reason, passed_record};
use crate::positions::column_position;
use measures::{paper, stops};
use printer::commands::Target;
use printer::records::Record;
use printer::settings::{Margins, Settings};
use printer::stops::TabStops;
use printer::units::Units;
use registers::groups::settings_in;
use registers::{
    CHANNEL_COUNTS, CHANNEL_STOPS, CHOSEN, COLUMN_COUNT, COLUMN_WIDTH, COUNT, GATHERED_COUNT,
    GATHERED_STOPS,
};

// The registers of a list: its count, and its stops.
const LIST: usize = TabStops::ROOM + 1;

// An empty list is begun.
pub(crate) fn open_list(m: &mut [u32; COUNT])
    ensures { Leaves m.old m.new (λ (p : Printer). with_parts p p.settings p.place (gathering p.stops no_stops)) }
{
    m[GATHERED_COUNT..GATHERED_COUNT + LIST].fill(0);
}

// The gathered list sets a channel; there are eight, and of sixteen stops each. The count of a channel that was set is one more than its stops.
fn set_channel(m: &mut [u32; COUNT], c: u8)
    ensures { (p : Printer) (v : Pending) → Held p v m.old → c ≤ 7 → p.stops.gathered.count ≤ 16
        → Held (with_parts p p.settings p.place (stops_of p.stops.columns (with_channel p.stops.channels c p.stops.gathered) p.stops.gathered)) v m.new }
{
    let channel = (c % 8) as usize;
    let held = m[GATHERED_COUNT].min(16);
    m.copy_within(
        GATHERED_STOPS..GATHERED_STOPS + 16,
        CHANNEL_STOPS + 16 * channel,
    );
    m[CHANNEL_COUNTS + channel] = held + 1;
}

// The end of a list: it replaces the stops in force, and is emptied.
pub(crate) fn end_list(m: &mut [u32; COUNT], k: Target)
    ensures { (p : Printer) (v : Pending) → Held p v m.old → Gathered p.stops k
        → m.new ≡ words v (with_parts p p.settings p.place (list_ended p.stops k)) }
{
    match k {
        Target::Columns => {
            m.copy_within(GATHERED_COUNT..GATHERED_COUNT + LIST, COLUMN_COUNT);
            open_list(m);
        }
        Target::Channel(c) => {
            set_channel(&mut *m, c);
            open_list(m);
        }
    }
}

// Whether a column is within the right margin.
fn column_fits(m: Margins, width: Units, n: u8) -> bool
    ensures { result ≡ leb (column_at m.left.0 width.0 n) m.right.0 }
{
    column_position(m.left, width, n as u32) <= m.right.0 as u64
}

// Whether a distance from the top is below it and above the edge, so that it fits 32 bits.
fn line_fits(down: u64, edge: Units) -> bool
    ensures { (result ≡ both (leb 1 down) (ltb down edge.0)) × (result ≡ true → down ≤ 0xFFFFFFFF) }
{
    (1 <= down) & (down < edge.0 as u64)
}

// Whether a list byte, made a stop, is within the page, by the column width that the settings come to; so that it fits 32 bits.
fn stop_fits(s: Settings, width: Units, k: Target, b: u8) -> bool
    ensures { (width.0 ≡ column_of s → result ≡ holds (stop_place s k (stop_of s k b))) × (result ≡ true → stop_of s k b ≤ 0xFFFFFFFF) }
{
    let margins = s.margins;
    match k {
        Target::Columns => column_fits(margins, width, b),
        Target::Channel(_) => line_fits(stops::stop_of(s.paper.line, k, b), paper::edge(s.paper)),
    }
}

// Whether a list byte may be a stop: the list has room for it, and it is within the page.
fn stop_allowed(s: Settings, width: Units, count: u32, k: Target, b: u8) -> bool
    ensures { (width.0 ≡ column_of s → result ≡ both (ltb count (most_stops k)) (holds (stop_place s k (stop_of s k b)))) × (result ≡ true → (count < 32) × (stop_of s k b ≤ 0xFFFFFFFF)) }
{
    (count < stops::most(k)) & stop_fits(s, width, k, b)
}

// One more stop in the gathered list.
fn add_stop(m: &mut [u32; COUNT], count: u32, stop: u32)
    requires { count < 32 }
    ensures { m.new ≡ set (set m.old (gathered_stops_at + count) stop) gathered_count_at (count + 1) }
{
    let at = GATHERED_STOPS + count as usize;
    m[at] = stop;
    m[GATHERED_COUNT] = count + 1;
}

// A byte of a list: one more stop, or passed over.
pub(crate) fn list_byte(m: &mut [u32; COUNT], k: Target, b: u8) -> Option<Record>
    ensures { Does (λ (p : Printer). attempt p (Command.List (Listing.Sets k) (ListPart.Byte b)) 3 ∷ []) m.old m.new (option_to_list result) }
{
    let s = settings_in(&*m);
    let count = m[GATHERED_COUNT];
    let width = Units(m[COLUMN_WIDTH]);
    let allowed = stop_allowed(s, width, count, k, b);
    if allowed {
        add_stop(m, count, stops::stop_of(s.paper.line, k, b) as u32);
        return None;
    }
    Some(passed_record(b, Reason::PastLimits))
}

// ESC /: the channel that VT uses.
pub(crate) fn choose(m: &mut [u32; COUNT], n: u8) -> Option<Record>
    ensures { Does (λ (p : Printer). attempt p (Command.Channel n) 2 ∷ []) m.old m.new (option_to_list result) }
{
    if n <= 7 {
        m[CHOSEN] = n as u32;
        return None;
    }
    Some(passed_record(b'/', Reason::NotAllowed))
}
