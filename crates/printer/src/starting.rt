// The settings that a start takes, and what it keeps of them.
ghost use Rattle.std.specs.Prelude.{◌≡◌};
ghost use Rattle.printer.specs.Calls.{plain_start, resolution_of, setup_of, usable};

use crate::settings::{Setup, StartSettings};
use crate::state::Printer;
use crate::units::{Resolution, Units};

// What a refused start gives.
pub fn plain_start() -> StartSettings
    ensures { result ≡ plain_start }
{
    StartSettings {
        resolution: 300,
        autofeed: false,
        width: Printer::MOST_WIDTH.0,
    }
}

// Whether a start takes them.
pub fn usable(settings: StartSettings) -> bool
    ensures { result ≡ usable settings }
{
    let width = settings.width;
    matches!(settings.resolution, 203 | 300)
        && (Printer::LEAST_WIDTH.0 <= width && width <= Printer::MOST_WIDTH.0)
}

fn resolution_of(dots: u32) -> Resolution
    ensures { result ≡ resolution_of dots }
{
    match dots {
        203 => Resolution::Dots203,
        _ => Resolution::Dots300,
    }
}

// What ESC @ keeps.
pub fn setup_of(settings: StartSettings) -> Setup
    ensures { result ≡ setup_of settings }
{
    Setup {
        resolution: resolution_of(settings.resolution),
        autofeed: settings.autofeed,
        width: Units(settings.width),
    }
}
