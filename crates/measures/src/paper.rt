// Where a page ends.
ghost use Rattle.std.specs.Prelude.{◌≡◌, ◌-◌};
ghost use Rattle.printer.specs.Units.{units};

use printer::settings::Paper;
use printer::units::Units;

// The edge: page length less perforation skip.
pub fn edge(paper: Paper) -> Units
    ensures { result ≡ units (paper.page.0 - paper.skip.0) }
{
    Units(paper.page.0.saturating_sub(paper.skip.0))
}
