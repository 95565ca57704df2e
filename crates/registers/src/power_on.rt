// The state at power-on.
ghost use Rattle.std.specs.Prelude.{◌≡◌, ◌-◌, ◌≤◌, drop, replicate};
ghost use Rattle.registers.specs.Register.{channel_stops_at, register_count};
ghost use Rattle.registers.specs.Layout.{words};
ghost use Rattle.registers.specs.Stores.{stores, over, stale_in, power_on_cells, column_cells, restarted};

use crate::derived::keep_widths;
use crate::stores::store_setup;
use crate::{
    ACROSS, CHANNEL_STOPS, COLUMN_COUNT, COLUMN_STOPS, COUNT, LINE, PAGE, PITCH, RIGHT,
    UPPER_PRINTS,
};
use printer::settings::Setup;
use printer::state::Printer;
use printer::units::Units;

// Some registers are 0.
fn clear(m: &mut [u32; COUNT], from: usize, to: usize)
    requires { (from ≤ to) × (to ≤ register_count) }
    ensures { m.new ≡ over from (replicate (to - from) 0) m.old }
{
    m[from..to].fill(0);
}

// The places of the channels are 0.
pub fn clear_channels(m: &mut [u32; COUNT])
    ensures { m.new ≡ over channel_stops_at (replicate 128 0) m.old }
{
    clear(m, CHANNEL_STOPS, COUNT);
}

// The settings that are not 0, but for those of the start: the right margin is at the paper's width.
fn store_settings(m: &mut [u32; COUNT], width: Units)
    ensures { m.new ≡ stores (power_on_cells width) m.old }
{
    m[RIGHT] = width.0;
    m[PAGE] = Printer::POWER_ON_PAGE.0;
    m[LINE] = Printer::POWER_ON_LINE.0;
    m[PITCH] = 10;
    m[UPPER_PRINTS] = 1;
}

// Horizontal stops at columns 8, 16 .. 72.
fn store_columns(m: &mut [u32; COUNT])
    ensures { m.new ≡ stores column_cells m.old }
{
    let columns = [8, 16, 24, 32, 40, 48, 56, 64, 72];
    m[COLUMN_COUNT] = 9;
    m[COLUMN_STOPS..COLUMN_STOPS + 9].copy_from_slice(&columns);
}

// Stores it over all but what is waited for and the places of the channels, which were never set.
pub fn power_on(m: &mut [u32; COUNT], setup: Setup)
    ensures { m.new ≡ words (stale_in m.old) (restarted setup (drop channel_stops_at m.old)) }
{
    clear(m, ACROSS, CHANNEL_STOPS);
    store_setup(m, setup);
    store_settings(m, setup.width);
    store_columns(m);
    keep_widths(m);
}
