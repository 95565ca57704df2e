// The state of the printer, and the state at power-on.
ghost use Rattle.std.specs.Prelude.{◌≡◌};
ghost use Rattle.printer.specs.PowerOn.{power_on, power_on_settings, power_on_stops, no_stops, no_channels};

use crate::commands::Waiting;
use crate::settings::{Emphasis, Face, Margins, Paper, Script, Settings, Setup, Width};
use crate::stops::{Channels, Stops, TabStops};
use crate::units::Units;

#[derive(Clone, Copy)]
pub struct Place {
    pub across: Units,
    pub down: Units,
}

#[derive(Clone, Copy)]
pub struct Printer {
    pub settings: Settings,
    pub place: Place,
    pub stops: Stops,
    pub waiting: Waiting,
}

// Each group but the margins and the paper begins as its default: 10 cpi, font and country 0, no style.
fn power_on_settings(setup: Setup) -> Settings
    ensures { result ≡ power_on_settings setup }
{
    Settings {
        setup,
        width: Width::default(),
        emphasis: Emphasis::default(),
        script: Script::default(),
        face: Face::default(),
        margins: Margins {
            left: Units(0),
            right: setup.width,
        },
        paper: Paper {
            page: Printer::POWER_ON_PAGE,
            skip: Units(0),
            line: Printer::POWER_ON_LINE,
        },
        draft: false,
        upperprints: true,
    }
}

fn no_stops() -> TabStops
    ensures { result ≡ no_stops }
{
    TabStops {
        stops: [0; TabStops::ROOM],
        count: 0,
    }
}

// Horizontal stops at columns 8, 16 .. 72.
fn power_on_columns() -> TabStops
    ensures { result ≡ power_on_stops.columns }
{
    let mut stops = [0; TabStops::ROOM];
    stops[..9].copy_from_slice(&[8, 16, 24, 32, 40, 48, 56, 64, 72]);
    TabStops { stops, count: 9 }
}

// All channels never set, and channel 0 chosen.
fn no_channels() -> Channels
    ensures { result ≡ no_channels }
{
    Channels {
        stops: [0; Channels::ROOM],
        counts: [0; Channels::NUMBER],
        chosen: 0,
    }
}

// Vertical stops never set, and none being gathered.
fn power_on_stops() -> Stops
    ensures { result ≡ power_on_stops }
{
    Stops {
        columns: power_on_columns(),
        channels: no_channels(),
        gathered: no_stops(),
    }
}

impl Printer {
    // The shortest page.
    pub const LEAST_PAGE: Units = Units(3600);

    // The longest page.
    pub const MOST_PAGE: Units = Units(79200);

    // The page at power-on.
    pub const POWER_ON_PAGE: Units = Units(39600);

    // The narrowest paper: 20 columns at 10 cpi.
    pub const LEAST_WIDTH: Units = Units(7200);

    // The widest paper: 80 columns at 10 cpi.
    pub const MOST_WIDTH: Units = Units(28800);

    // The line amount at power-on.
    pub const POWER_ON_LINE: Units = Units(600);

    // The state at power-on.
    pub fn power_on(setup: Setup) -> Printer
        ensures { result ≡ power_on setup }
    {
        Printer {
            settings: power_on_settings(setup),
            place: Place {
                across: Units(0),
                down: Units(0),
            },
            stops: power_on_stops(),
            waiting: Waiting::Nothing,
        }
    }
}
