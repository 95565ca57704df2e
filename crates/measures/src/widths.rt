// Base, advance and column width.
ghost use Rattle.std.specs.Prelude.{◌≡◌, ◌*◌, ◌≤◌, eqb};
ghost use Rattle.printer.specs.Units.{units, per_inch_across};
ghost use Rattle.printer.specs.Widths.{base, double_width, advance, column_width, image_step, image_bytes};
ghost use Rattle.measures.specs.Exact.{packed};

use printer::commands::ImageMode;
use printer::settings::{Pitch, Width};
use printer::units::{Resolution, Units};

fn base_units(w: Width) -> u32
    ensures { (result ≡ base w.pitch w.reduced w.proportional) × (result ≤ 360) }
{
    match (w.pitch, w.reduced, w.proportional) {
        (Pitch::Cpi10, false, false) => 360,
        (Pitch::Cpi12, false, false) => 300,
        (Pitch::Cpi15, false, false) => 240,
        (Pitch::Cpi10, true, false) => 216,
        (Pitch::Cpi12, true, false) => 180,
        (Pitch::Cpi15, true, false) => 240,
        (_, false, true) => 360,
        (_, true, true) => 180,
    }
}

fn advance_units(w: Width) -> u32
    ensures { (result ≡ advance w) × (result ≤ 10920) }
{
    let once = base_units(w) + 20 * w.spacing as u32;
    if double_width(w) { 2 * once } else { once }
}

// Whether letters print at double width: ESC W 1 or SO.
pub(crate) fn double_width(w: Width) -> bool
    ensures { result ≡ double_width w }
{
    w.wide | w.wideonce
}

// How far a letter moves the position.
pub fn advance(w: Width) -> Units
    ensures { result ≡ units (advance w) }
{
    Units(advance_units(w))
}

// Whether a number is the exact step of the advance: it gives the advance back.
pub fn is_advance_dots(n: u32, resolution: Resolution, w: Width) -> bool
    ensures { result ≡ eqb n (packed (advance w * per_inch_across resolution)) }
{
    let parts = advance_units(w) * resolution.dots_across();
    if n < 235929600 {
        return n % 65536 * 3600 + n / 65536 == parts;
    }
    false
}

// The width of the columns that margins and tab stops count.
pub fn column_width(w: Width) -> Units
    ensures { result ≡ units (column_width w) }
{
    if w.proportional {
        Units(360)
    } else {
        Units(advance_units(w))
    }
}

// The units of an image column.
pub fn image_step(m: ImageMode) -> Units
    ensures { result ≡ units (image_step m) }
{
    match m {
        ImageMode::Single => Units(60),
        ImageMode::Double => Units(30),
        ImageMode::DoubleSpeed => Units(30),
        ImageMode::Quadruple => Units(15),
        ImageMode::Crt80 => Units(45),
        ImageMode::Crt90 => Units(40),
        ImageMode::Single24 => Units(60),
        ImageMode::Double24 => Units(30),
        ImageMode::Crt24 => Units(40),
        ImageMode::Triple24 => Units(20),
        ImageMode::Hex24 => Units(10),
    }
}

// Its bytes.
pub fn image_bytes(m: ImageMode) -> u8
    ensures { result ≡ image_bytes m }
{
    match m {
        ImageMode::Single
        | ImageMode::Double
        | ImageMode::DoubleSpeed
        | ImageMode::Quadruple
        | ImageMode::Crt80
        | ImageMode::Crt90 => 1,
        ImageMode::Single24
        | ImageMode::Double24
        | ImageMode::Crt24
        | ImageMode::Triple24
        | ImageMode::Hex24 => 3,
    }
}
