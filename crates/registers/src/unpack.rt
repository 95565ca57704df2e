// The state by value that registers are read as.
ghost use Rattle.std.specs.Prelude.{◌≡◌, ◌+◌, ◌≤◌, take, drop};
ghost use Rattle.registers.specs.Register.{register_count};
ghost use Rattle.registers.specs.Groups.{channels_in, stops_in};
ghost use Rattle.registers.specs.State.{printer_in};

use crate::groups::{place_in, settings_in};
use crate::pending::waiting_in;
use crate::{
    CHANNEL_COUNTS, CHANNEL_STOPS, CHOSEN, COLUMN_COUNT, COLUMN_STOPS, COUNT, GATHERED_COUNT,
    GATHERED_STOPS,
};
use printer::state::Printer;
use printer::stops::{Channels, Stops, TabStops};

// The numbers from a place on.
fn copied<const N: usize>(m: &[u32; COUNT], from: usize) -> [u32; N]
    requires { from + N ≤ register_count }
    ensures { result ≡ take N (drop from m.now) }
{
    let mut numbers = [0; N];
    numbers.copy_from_slice(&m[from..from + N]);
    numbers
}

fn channels_in(m: &[u32; COUNT]) -> Channels
    ensures { result ≡ channels_in m.now }
{
    Channels {
        stops: copied(m, CHANNEL_STOPS),
        counts: copied(m, CHANNEL_COUNTS),
        chosen: m[CHOSEN],
    }
}

#[tactic(auto, unfolding(crate::specs::Groups::stops_in))]
fn stops_in(m: &[u32; COUNT]) -> Stops
    ensures { result ≡ stops_in m.now }
{
    Stops {
        columns: TabStops {
            stops: copied(m, COLUMN_STOPS),
            count: m[COLUMN_COUNT],
        },
        channels: channels_in(m),
        gathered: TabStops {
            stops: copied(m, GATHERED_STOPS),
            count: m[GATHERED_COUNT],
        },
    }
}

#[tactic(auto, unfolding(crate::specs::State::printer_in))]
pub fn unpack(m: &[u32; COUNT]) -> Printer
    ensures { result ≡ printer_in m.now }
{
    Printer {
        settings: settings_in(m),
        place: place_in(m),
        stops: stops_in(m),
        waiting: waiting_in(m),
    }
}
