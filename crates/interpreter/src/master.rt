// ESC !: width and emphasis at once, by the bits of its argument.
ghost use Rattle.std.specs.Prelude.{◌≡◌, ◌≤◌};
ghost use Rattle.printer.specs.Tools.{pick, bit};
ghost use Rattle.printer.specs.Escapes.{master_settings};
ghost use Rattle.printer.specs.declared.settings.Pitch.{Pitch};
ghost use Rattle.printer.specs.declared.settings.Settings.{Settings};
ghost use Rattle.registers.specs.Layout.{flag};
ghost use Rattle.registers.specs.Keeping.{shown_stored};
ghost use Rattle.interpreter.specs.Doing.{Sets};
ghost use Rattle.interpreter.specs.Storing.{master_width_in, master_emphasis_in};

use crate::settings::{double, show};
use printer::settings::Pitch;
use registers::derived::{Shown, keep_widths};
use registers::groups::pitch_number;
use registers::{COUNT, PITCH};

// Whether the bit of value k is set.
fn bit(n: u8, k: u8) -> bool
    requires { 1 ≤ k }
    ensures { result ≡ bit n k }
{
    n / k % 2 == 1
}

fn store_bit(m: &mut [u32; COUNT], s: Shown, n: u8, k: u8)
    requires { 1 ≤ k }
    ensures { m.new ≡ shown_stored m.old s (flag (bit n k)) }
{
    show(m, s, bit(n, k));
}

fn master_pitch(twelve: bool) -> Pitch
    ensures { result ≡ pick twelve Pitch.Cpi12 Pitch.Cpi10 }
{
    if twelve { Pitch::Cpi12 } else { Pitch::Cpi10 }
}

// ESC !: the width by the bits of its argument.
fn master_width(m: &mut [u32; COUNT], n: u8)
    ensures { m.new ≡ master_width_in m.old n }
{
    m[PITCH] = pitch_number(master_pitch(bit(n, 0x01)));
    store_bit(m, Shown::Proportional, n, 0x02);
    store_bit(m, Shown::Reduced, n, 0x04);
    double(m, bit(n, 0x20));
}

// And the emphasis.
fn master_emphasis(m: &mut [u32; COUNT], n: u8)
    ensures { m.new ≡ master_emphasis_in m.old n }
{
    store_bit(m, Shown::Bold, n, 0x08);
    store_bit(m, Shown::DoubleStrike, n, 0x10);
    store_bit(m, Shown::Italic, n, 0x40);
    store_bit(m, Shown::Underline, n, 0x80);
}

// ESC !
pub(crate) fn master(m: &mut [u32; COUNT], n: u8)
    ensures { Sets m.old m.new (λ (s : Settings). master_settings s n) }
{
    master_width(m, n);
    master_emphasis(m, n);
    keep_widths(m);
}
