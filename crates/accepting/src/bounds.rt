// What holds of a state at every moment: the test behind the answer that a state is refused.
ghost use Rattle.std.specs.Prelude.{◌≡◌, suc, ◌+◌, ◌-◌, ◌*◌, ◌<◌, leb};
ghost use Rattle.printer.specs.Bounds.{settings_bounds, place_bounds, last_stop, list_bounds, target_bounds, column_bounds, channels_below, channel_bounds, channel_of, gathering_bounds, listing_bounds, waiting_bounds};
ghost use Rattle.printer.specs.Deciding.{most_stops};
ghost use Rattle.printer.specs.Settings.{channel_stops};
ghost use Rattle.printer.specs.Tools.{both, holds};
ghost use Rattle.printer.specs.Widths.{image_bytes};
ghost use Rattle.printer.specs.declared.commands.Target.{Target};
ghost use Rattle.registers.specs.Groups.{place_in, settings_in, channels_in, stops_in};
ghost use Rattle.registers.specs.State.{waiting_of, pending_in, accepted_in};
ghost use Rattle.accepting.specs.Same.{accepts, examined};

use crate::lists;
use crate::same::same_registers;
use measures::widths::image_bytes;
use measures::{countries, stops};
use printer::commands::{ImageMode, Listing, Target, Waiting};
use printer::state::Printer;
use printer::stops::Channels;
use printer::units::Units;
use registers::pending::{pending_of, waiting_in};
use registers::{
    ACROSS, CHANNEL_COUNTS, CHANNEL_STOPS, CHOSEN, COLUMN_COUNT, COLUMN_STOPS, COUNT, COUNTRY,
    DOWN, GATHERED_COUNT, GATHERED_STOPS, LEFT, LINE, OUTLINE, PAGE, PAPER_WIDTH, RIGHT, SKIP,
    SPACING,
};

// Whether so much of a page and the skip are no longer than the page.
fn leaves(least: u32, skip: u32, page: u32) -> bool
    ensures { result ≡ leb (least + skip) page }
{
    least as u64 + skip as u64 <= page as u64
}

// Whether a place is above the edge of the page.
fn above_edge(down: u32, skip: u32, page: u32) -> bool
    ensures { result ≡ leb (suc down) (page - skip) }
{
    (down as u64 + skip as u64) < page as u64
}

#[tactic(auto, using(printer::proofs::CodeLaws::both_true, crate::proofs::StopLists::passing), unfolding(registers::specs::Groups::settings_in))]
fn settings_within(m: &[u32; COUNT]) -> bool
    ensures { result ≡ holds (settings_bounds (settings_in m.now)) }
{
    let right = m[RIGHT];
    let width = m[PAPER_WIDTH];
    let page = m[PAGE];
    (m[LEFT] < right)
        & (right <= width)
        & (Printer::LEAST_WIDTH.0 <= width)
        & (width <= Printer::MOST_WIDTH.0)
        & (Printer::LEAST_PAGE.0 <= page)
        & (page <= Printer::MOST_PAGE.0)
        & leaves(Printer::LEAST_PAGE.0, m[SKIP], page)
        & (m[LINE] <= 5100)
        & (m[SPACING] % 256 <= 127)
        & countries::named((m[COUNTRY] % 256) as u8)
        & (m[OUTLINE] % 256 <= 3)
}

#[tactic(auto, using(printer::proofs::CodeLaws::both_true), unfolding(registers::specs::Groups::settings_in))]
fn place_within(m: &[u32; COUNT]) -> bool
    ensures { result ≡ holds (place_bounds (settings_in m.now) (place_in m.now)) }
{
    let across = m[ACROSS];
    (m[LEFT] <= across) & (across <= m[RIGHT]) & above_edge(m[DOWN], m[SKIP], m[PAGE])
}

// The last stop of a kind that there may be.
fn last_stop(k: Target) -> u32
    ensures { result ≡ last_stop k }
{
    match k {
        Target::Columns => 255,
        Target::Channel(_) => Printer::MOST_PAGE.0 - 1,
    }
}

// Whether a list obeys the bounds of its kind.
fn list_within(list: &[u32], count: u32, k: Target) -> bool
    ensures { result ≡ holds (list_bounds (most_stops k) (last_stop k) (record { stops = list.now; count = count })) }
{
    lists::ascend(list, count, stops::most(k), last_stop(k))
}

#[tactic(auto, unfolding(registers::specs::Groups::stops_in))]
fn columns_within(m: &[u32; COUNT]) -> bool
    ensures { result ≡ holds (column_bounds (stops_in m.now)) }
{
    list_within(
        &m[COLUMN_STOPS..GATHERED_COUNT],
        m[COLUMN_COUNT],
        Target::Columns,
    )
}

// Whether a channel obeys the bounds. Only the stops that it holds are looked at.
fn channel_within(m: &[u32; COUNT], channel: usize) -> bool
    requires { channel < 8 }
    ensures { result ≡ holds (target_bounds (Target.Channel channel) (channel_stops (channels_in m.now) channel)) }
{
    let count = m[CHANNEL_COUNTS + channel];
    if count <= 1 {
        return true;
    }
    let from = CHANNEL_STOPS + 16 * channel;
    list_within(
        &m[from..from + 16],
        count - 1,
        Target::Channel(channel as u8),
    )
}

fn channels_each(m: &[u32; COUNT]) -> bool
    ensures { result ≡ holds (channels_below (channels_in m.now) 8) }
{
    let mut within = true;
    for channel in 0..Channels::NUMBER {
        within = channel_within(m, channel) & within;
    }
    within
}

// The chosen one is one of the eight.
fn channels_within(m: &[u32; COUNT]) -> bool
    ensures { result ≡ holds (channel_bounds (channels_in m.now)) }
{
    (m[CHOSEN] <= 7) & channels_each(m)
}

// The channel that a list sets, if it sets one.
fn channel_of(k: Target) -> u8
    ensures { result ≡ channel_of k }
{
    match k {
        Target::Columns => 0,
        Target::Channel(c) => c,
    }
}

// A list being gathered: its last byte, made a stop, is not below its last stop.
#[tactic(auto, unfolding(registers::specs::Groups::settings_in, registers::specs::Groups::stops_in))]
fn gathering_within(m: &[u32; COUNT], k: Target, byte: u8) -> bool
    ensures { result ≡ holds (gathering_bounds (settings_in m.now) (stops_in m.now) k byte) }
{
    let count = m[GATHERED_COUNT];
    let stop = stops::stop_of(Units(m[LINE]), k, byte);
    let list = &m[GATHERED_STOPS..CHANNEL_COUNTS];
    (lists::last(list, count) as u64 <= stop) & (channel_of(k) <= 7) & list_within(list, count, k)
}

fn listing_within(m: &[u32; COUNT], k: Listing, byte: u8) -> bool
    ensures { result ≡ holds (listing_bounds (settings_in m.now) (stops_in m.now) k byte) }
{
    match k {
        Listing::Sets(t) => gathering_within(m, t, byte),
        Listing::Dropped => true,
    }
}

// Image data: some columns, and a byte that a column has.
fn image_within(mode: ImageMode, k: u8, n: u16) -> bool
    ensures { result ≡ both (leb 1 n) (both (leb 1 k) (leb k (image_bytes mode))) }
{
    (1 <= n) & (1 <= k) & (k <= image_bytes(mode))
}

fn waiting_within(m: &[u32; COUNT], w: Waiting) -> bool
    ensures { result ≡ holds (waiting_bounds (settings_in m.now) (stops_in m.now) w) }
{
    match w {
        Waiting::StopList(k, byte) => listing_within(m, k, byte),
        Waiting::ImageData(mode, k, n) => image_within(mode, k, n),
        _ => true,
    }
}

// Whether registers are those of the printer that they are read as, waiting for this, and it is within its bounds. (A test that fails ends it:
// all at once would hold more than the processor has registers for.)
#[tactic(auto, unfolding(crate::specs::Same::accepts))]
fn accepts(m: &[u32; COUNT], waiting: Waiting) -> bool
    ensures { result ≡ accepts m.now waiting }
{
    same_registers(m, pending_of(waiting))
        && settings_within(m)
        && place_within(m)
        && columns_within(m)
        && channels_within(m)
        && waiting_within(m, waiting)
}

// Registers that are not of a state within its bounds, by what they say is waited for.
#[derive(Clone, Copy)]
pub struct Refused {
    pub waiting: Waiting,
}

// What registers say is waited for: Ok of a state within its bounds, Err of any others.
pub fn examine(m: &[u32; COUNT]) -> Result<Waiting, Refused>
    ensures { result ≡ examined (accepted_in m.now) (waiting_of (pending_in m.now)) }
{
    let waiting = waiting_in(m);
    if !accepts(m, waiting) {
        return Err(Refused { waiting });
    }
    Ok(waiting)
}
