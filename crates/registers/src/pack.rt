// A state by value stored in its registers.
ghost use Rattle.std.specs.Prelude.{◌≡◌, ◌+◌, ◌≤◌, length};
ghost use Rattle.registers.specs.Register.{register_count};
ghost use Rattle.registers.specs.Stores.{over, list_stored, channels_stored, stops_stored};
ghost use Rattle.registers.specs.State.{registers_of};

use crate::pending::{pending_of, store_pending};
use crate::stores::{store_place, store_settings};
use crate::{CHANNEL_COUNTS, CHANNEL_STOPS, CHOSEN, COLUMN_COUNT, COUNT, GATHERED_COUNT};
use printer::state::Printer;
use printer::stops::{Channels, Stops, TabStops};

// Numbers from a place on.
fn lay(m: &mut [u32; COUNT], from: usize, numbers: &[u32])
    requires { from + length numbers.now ≤ register_count }
    ensures { m.new ≡ over from numbers.now m.old }
{
    m[from..from + numbers.len()].copy_from_slice(numbers);
}

// A list: its count, and its stops.
fn store_list(m: &mut [u32; COUNT], from: usize, list: TabStops)
    requires { from + 33 ≤ register_count }
    ensures { m.new ≡ list_stored from list m.old }
{
    m[from] = list.count;
    lay(m, from + 1, &list.stops);
}

fn store_channels(m: &mut [u32; COUNT], c: Channels)
    ensures { m.new ≡ channels_stored c m.old }
{
    lay(m, CHANNEL_COUNTS, &c.counts);
    lay(m, CHANNEL_STOPS, &c.stops);
}

#[tactic(auto, unfolding(crate::specs::Stores::stops_stored))]
fn store_stops(m: &mut [u32; COUNT], t: Stops)
    ensures { m.new ≡ stops_stored t m.old }
{
    m[CHOSEN] = t.channels.chosen;
    store_list(m, COLUMN_COUNT, t.columns);
    store_list(m, GATHERED_COUNT, t.gathered);
    store_channels(m, t.channels);
}

// Stores it over whatever stood there.
pub fn pack(m: &mut [u32; COUNT], p: Printer)
    ensures { m.new ≡ registers_of p }
{
    store_place(m, p.place);
    store_settings(m, p.settings);
    store_stops(m, p.stops);
    store_pending(m, pending_of(p.waiting));
}
