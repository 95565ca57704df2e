// Settings stored where they stand, and what follows from them.
ghost use Rattle.std.specs.Prelude.{◌≡◌, false, ◌<◌, set};
ghost use Rattle.printer.specs.Tools.{holds};
ghost use Rattle.printer.specs.Settings.{with_width, with_wide_once, with_script};
ghost use Rattle.printer.specs.Escapes.{doubled};
ghost use Rattle.printer.specs.Deciding.{reduced_needs};
ghost use Rattle.printer.specs.declared.settings.Settings.{Settings};
ghost use Rattle.printer.specs.declared.state.Printer.{Printer};
ghost use Rattle.registers.specs.declared.pending.Pending.{Pending};
ghost use Rattle.registers.specs.Register.{register_count};
ghost use Rattle.registers.specs.Layout.{flag};
ghost use Rattle.registers.specs.Keeping.{measured, shown_stored};
ghost use Rattle.registers.specs.Held.{Held};
ghost use Rattle.interpreter.specs.Doing.{Sets};
ghost use Rattle.interpreter.specs.Storing.{doubled_in};

use registers::derived::{Shown, keep_widths, store_double, store_shown};
use registers::groups::flag;
use registers::{COUNT, PITCH, WIDE, WIDE_ONCE};

// A setting that the widths depend on, and that does not show.
pub(crate) fn store_width(m: &mut [u32; COUNT], register: usize, n: u32)
    requires { register < register_count }
    ensures { m.new ≡ measured (set m.old register n) }
{
    m[register] = n;
    keep_widths(m);
}

// One that shows in the style bits, switched on or off.
pub(crate) fn show(m: &mut [u32; COUNT], s: Shown, on: bool)
    ensures { m.new ≡ shown_stored m.old s (flag on) }
{
    store_shown(m, s, flag(on));
}

// One that shows, and that the widths depend on: reduced, proportional.
pub(crate) fn show_width(m: &mut [u32; COUNT], s: Shown, on: bool)
    ensures { m.new ≡ measured (shown_stored m.old s (flag on)) }
{
    show(m, s, on);
    keep_widths(m);
}

// SO: double width for one line.
pub(crate) fn wide_once(m: &mut [u32; COUNT], on: bool)
    ensures { Sets m.old m.new (λ (s : Settings). with_wide_once s on) }
{
    let wide = m[WIDE];
    store_double(m, wide, flag(on));
    keep_widths(m);
}

// SO ends, at each line: mostly it is not in force.
pub(crate) fn end_wide_once(m: &mut [u32; COUNT])
    ensures { Sets m.old m.new (λ (s : Settings). with_wide_once s false) }
{
    if m[WIDE_ONCE] == 0 {
        return;
    }
    wide_once(m, false);
}

// Whether SI is allowed: not at 15 cpi.
pub(crate) fn reduced_allowed(m: &[u32; COUNT]) -> bool
    ensures { (p : Printer) (v : Pending) → Held p v m.now → result ≡ holds (reduced_needs p.settings.width) }
{
    m[PITCH] != 15
}

// Double width, whose end ends SO too.
pub(crate) fn double(m: &mut [u32; COUNT], on: bool)
    ensures { m.new ≡ doubled_in m.old on }
{
    let once = on & (m[WIDE_ONCE] == 1);
    store_double(m, flag(on), flag(once));
}

// ESC W.
pub(crate) fn double_width(m: &mut [u32; COUNT], on: bool)
    ensures { Sets m.old m.new (λ (s : Settings). with_width s (doubled s.width on)) }
{
    double(m, on);
    keep_widths(m);
}

// ESC S and ESC T: each script bit.
pub(crate) fn script(m: &mut [u32; COUNT], up: bool, down: bool)
    ensures { Sets m.old m.new (λ (s : Settings). with_script s up down) }
{
    show(m, Shown::Superscript, up);
    show(m, Shown::Subscript, down);
}
