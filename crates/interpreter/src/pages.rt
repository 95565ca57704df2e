// Perforation skip, page length and ESC @.
ghost use Rattle.std.specs.Prelude.{◌≡◌, [], ◌∷◌, suc, ◌+◌, ◌*◌, ◌≤◌, option_to_list};
ghost use Rattle.printer.specs.Tools.{within, ◌up_to◌, holds};
ghost use Rattle.printer.specs.Units.{shortest_page};
ghost use Rattle.printer.specs.Performing.{done, page_units};
ghost use Rattle.printer.specs.Deciding.{page_range, attempt, ranged};
ghost use Rattle.printer.specs.declared.commands.Command.{Command};
ghost use Rattle.printer.specs.declared.commands.Page.{Page};
ghost use Rattle.printer.specs.declared.state.Printer.{Printer};
ghost use Rattle.registers.specs.declared.pending.Pending.{Pending};
ghost use Rattle.registers.specs.Held.{Held};
ghost use Rattle.interpreter.specs.Doing.{Did, Does};

use crate::output::{Reason, feed_record, passed_record};
use measures::lengths::times;
use printer::commands::Page;
use printer::records::Record;
use printer::state::Printer;
use printer::units::Units;
use registers::groups::{paper_in, place_in, setup_in};
use registers::power_on::power_on;
use registers::{COUNT, DOWN, PAGE, SKIP};

// ESC N: whether 3,600 units are left by a skip, and the place is before the new edge.
fn skip_fits(skip: u64, page: Units, down: Units) -> bool
    requires { skip ≤ 255 * 4294967295 }
    ensures { result ≡ holds ((shortest_page + skip up_to page.0) ∷ (suc (down.0 + skip) up_to page.0) ∷ []) }
{
    let least = Printer::LEAST_PAGE;
    let left = least.0 as u64 + skip <= page.0 as u64;
    let before = down.0 as u64 + skip < page.0 as u64;
    left & before
}

// A skip of n lines, if it fits.
fn attempt_skip(m: &mut [u32; COUNT], n: u8) -> Option<Record>
    ensures { Does (λ (p : Printer). attempt p (Command.Skip n) 3 ∷ []) m.old m.new (option_to_list result) }
{
    let paper = paper_in(&*m);
    let place = place_in(&*m);
    let skip = times(paper.line, n as u32);
    if skip_fits(skip, paper.page, place.down) {
        m[SKIP] = skip as u32;
        return None;
    }
    Some(passed_record(b'N', Reason::PastLimits))
}

// ESC N.
pub(crate) fn skip(m: &mut [u32; COUNT], n: u8) -> Option<Record>
    ensures { Does (λ (p : Printer). ranged (within 1 127 n) (Command.Skip n) (attempt p (Command.Skip n) 3) ∷ []) m.old m.new (option_to_list result) }
{
    let fits = (1 <= n) & (n <= 127);
    if fits {
        return attempt_skip(m, n);
    }
    Some(passed_record(b'N', Reason::NotAllowed))
}

// ESC C in its range: a page of this length, if it is one to 22 inches, and its top.
fn new_page(m: &mut [u32; COUNT], units: u64) -> Record
    ensures { (g : Page) (p : Printer) (v : Pending) → Held p v m.old → units ≡ page_units p.settings g
        → Did p v (attempt p (Command.Page g) 3 ∷ []) m.new (result ∷ []) }
{
    let least = Printer::LEAST_PAGE;
    let most = Printer::MOST_PAGE;
    let allowed = (least.0 as u64 <= units) & (units <= most.0 as u64);
    if allowed {
        m[PAGE] = units as u32;
        m[SKIP] = 0;
        m[DOWN] = 0;
        return feed_record(&*m, Units(0), 255);
    }
    passed_record(b'C', Reason::PastLimits)
}

// Whether the number of lines or inches is in its range.
fn page_fits(g: Page) -> bool
    ensures { result ≡ page_range g }
{
    matches!(g, Page::Lines(1..=127) | Page::Inches(1..=22))
}

// The length of the page.
fn page_units(m: &[u32; COUNT], g: Page) -> u64
    ensures { (p : Printer) (v : Pending) → Held p v m.now → result ≡ page_units p.settings g }
{
    let paper = paper_in(m);
    match g {
        Page::Lines(n) => times(paper.line, n as u32),
        Page::Inches(n) => 3600 * n as u64,
    }
}

// ESC C.
pub(crate) fn page(m: &mut [u32; COUNT], g: Page) -> Record
    ensures { Does (λ (p : Printer). ranged (page_range g) (Command.Page g) (attempt p (Command.Page g) 3) ∷ []) m.old m.new (result ∷ []) }
{
    if page_fits(g) {
        let units = page_units(&*m, g);
        return new_page(m, units);
    }
    passed_record(b'C', Reason::NotAllowed)
}

// ESC @: power-on, with the settings of the start kept, and a new top.
pub(crate) fn reset(m: &mut [u32; COUNT]) -> Record
    ensures { Does (λ (p : Printer). done Command.Reset 0 ∷ []) m.old m.new (result ∷ []) }
{
    let setup = setup_in(&*m);
    power_on(&mut *m, setup);
    feed_record(&*m, Units(0), 255)
}
