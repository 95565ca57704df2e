// Lists of tab stops: how many they hold, and what their bytes mean.
ghost use Rattle.std.specs.Prelude.{◌≡◌};
ghost use Rattle.printer.specs.Performing.{stop_of};
ghost use Rattle.printer.specs.Deciding.{most_stops};
ghost use Rattle.printer.specs.declared.settings.Settings.{Settings};

use crate::lengths::times;
use printer::commands::Target;
use printer::units::Units;

// At most so many stops of a kind.
pub fn most(k: Target) -> u32
    ensures { result ≡ most_stops k }
{
    match k {
        Target::Columns => 32,
        Target::Channel(_) => 16,
    }
}

// A list byte made a stop: a column, or so many lines of the settings' amount.
pub fn stop_of(line: Units, k: Target, b: u8) -> u64
    ensures { (s : Settings) → s.paper.line ≡ line → result ≡ stop_of s k b }
{
    match k {
        Target::Columns => b as u64,
        Target::Channel(_) => times(line, b as u32),
    }
}
