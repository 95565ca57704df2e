// What follows from the settings: style bits, advance, column width, advance in dots.
ghost use Rattle.std.specs.Prelude.{◌≡◌, ◌≤◌};
ghost use Rattle.registers.specs.Register.{download_at};
ghost use Rattle.registers.specs.Keeping.{register_of, shows, restyled, shown_stored, double_stored, widths_stored, measured};

use crate::groups::{resolution_of, width_in};
use crate::{
    ADVANCE, ADVANCE_DOTS, BOLD, COLUMN_WIDTH, COUNT, DOTS_ACROSS, DOUBLE_HEIGHT, DOUBLE_STRIKE,
    DOWNLOAD, ITALIC, ITALIC_TABLE, OUTLINE, PROPORTIONAL, REDUCED, STYLE, SUBSCRIPT, SUPERSCRIPT,
    UNDERLINE, WIDE, WIDE_ONCE,
};
use measures::rounding::Exact;
use measures::widths;
use printer::settings::Width;
use printer::units::Resolution;

// A setting of one register that shows in the style bits, and the value of its lowest style bit.
#[derive(Clone, Copy)]
pub enum Shown {
    Bold = 0x1,
    DoubleStrike = 0x2,
    Italic = 0x4,
    Underline = 0x8,
    Superscript = 0x10,
    Subscript = 0x20,
    DoubleHeight = 0x80,
    Outline = 0x100,
    Proportional = 0x400,
    Reduced = 0x800,
    ItalicTable = 0x1000,
    Download = 0x2000,
}

fn register_of(k: Shown) -> usize
    ensures { (result ≡ register_of k) × (result ≤ download_at) }
{
    match k {
        Shown::Bold => BOLD,
        Shown::DoubleStrike => DOUBLE_STRIKE,
        Shown::Italic => ITALIC,
        Shown::Underline => UNDERLINE,
        Shown::Superscript => SUPERSCRIPT,
        Shown::Subscript => SUBSCRIPT,
        Shown::DoubleHeight => DOUBLE_HEIGHT,
        Shown::Outline => OUTLINE,
        Shown::Proportional => PROPORTIONAL,
        Shown::Reduced => REDUCED,
        Shown::ItalicTable => ITALIC_TABLE,
        Shown::Download => DOWNLOAD,
    }
}

// What a number in its register shows.
fn shows(k: Shown, n: u32) -> u32
    ensures { (result ≡ shows k n) × (result ≤ 0xFFFF) }
{
    n % 4 * k as u32
}

// The style bits by difference: less what a setting showed, and what it shows now.
fn keep_style(m: &mut [u32; COUNT], showed: u32, shows: u32)
    requires { (showed ≤ 0xFFFF) × (shows ≤ 0xFFFF) }
    ensures { m.new ≡ restyled m.old showed shows }
{
    m[STYLE] = (m[STYLE] % 0x10000 + 0x10000 - showed + shows) % 0x10000;
}

// Stores a setting that shows, and its style bits.
#[tactic(auto, unfolding(crate::specs::Keeping::shown_stored))]
pub fn store_shown(m: &mut [u32; COUNT], k: Shown, n: u32)
    ensures { m.new ≡ shown_stored m.old k n }
{
    let register = register_of(k);
    let showed = shows(k, m[register]);
    m[register] = n;
    keep_style(m, showed, shows(k, n));
}

// Double width has two registers, and shows if either is set.
#[tactic(auto, unfolding(crate::specs::Keeping::double_stored))]
pub fn store_double(m: &mut [u32; COUNT], wide: u32, once: u32)
    ensures { m.new ≡ double_stored m.old wide once }
{
    let showed = (m[WIDE] | m[WIDE_ONCE]) % 2 * 0x40;
    m[WIDE] = wide;
    m[WIDE_ONCE] = once;
    keep_style(m, showed, (wide | once) % 2 * 0x40);
}

// The advance, the column width and the advance in dots of a width.
pub(crate) fn store_widths(m: &mut [u32; COUNT], resolution: Resolution, w: Width)
    ensures { m.new ≡ widths_stored resolution w m.old }
{
    let advance = widths::advance(w);
    m[ADVANCE] = advance.0;
    m[COLUMN_WIDTH] = widths::column_width(w).0;
    m[ADVANCE_DOTS] = Exact::step(resolution, advance).0;
}

// Stores those of the width in the registers.
#[tactic(auto, unfolding(crate::specs::Keeping::measured))]
pub fn keep_widths(m: &mut [u32; COUNT])
    ensures { m.new ≡ measured m.old }
{
    let resolution = resolution_of(m[DOTS_ACROSS]);
    let w = width_in(m);
    store_widths(m, resolution, w);
}
