// What a byte is between commands, and what an image waits for.
#![tactic(auto)]

pub mod codes;

ghost use Rattle.std.specs.Prelude.{◌≡◌};
ghost use Rattle.printer.specs.Tools.{pick};
ghost use Rattle.printer.specs.Framing.{read_as, first_of, density_mode, image_wait, opened_list};
ghost use Rattle.printer.specs.declared.commands.ListOpening.{ListOpening};
ghost use Rattle.framing.specs.Letters.{prints_from};

use printer::commands::{Density, First, ImageMode, Listing, Tabs, Target, Waiting};

// The first byte above 7Fh that is a letter, by whether 80h to 9Fh print.
pub fn upper_letters(upper: bool) -> u8
    ensures { result ≡ pick upper 0x80 0xA0 }
{
    if upper { 0x80 } else { 0xA0 }
}

// Whether a byte prints: 20h to 7Eh, and from a number on. From 0 on, all do.
pub fn prints(from: u8, b: u8) -> bool
    ensures { result ≡ prints_from from b }
{
    ((0x20 <= b) & (b <= 0x7E)) | (from <= b)
}

// After ESC 7, 80h to 9Fh is read less 80h.
#[tactic(auto, unfolding(printer::specs::Framing::read_as))]
fn read_as(upper: bool, b: u8) -> u8
    ensures { result ≡ read_as upper b }
{
    match b {
        0x80..=0x9F if !upper => b - 0x80,
        _ => b,
    }
}

// What a byte is that is no letter, between commands.
pub fn first(upper: bool, b: u8) -> First
    ensures { result ≡ first_of (read_as upper b) }
{
    codes::first_of(read_as(upper, b))
}

// ESC K, L, Y, Z are modes 0 to 3.
pub fn density_mode(d: Density) -> ImageMode
    ensures { result ≡ density_mode d }
{
    match d {
        Density::Single => ImageMode::Single,
        Density::Double => ImageMode::Double,
        Density::DoubleSpeed => ImageMode::DoubleSpeed,
        Density::Quadruple => ImageMode::Quadruple,
    }
}

// So many columns of image data are waited for, from the first byte of one; none is nothing.
pub fn image_wait(m: ImageMode, n: u16) -> Waiting
    ensures { result ≡ image_wait m n }
{
    if n == 0 {
        return Waiting::Nothing;
    }
    Waiting::ImageData(m, 1, n)
}

// What ESC D and ESC B set.
pub fn named_list(t: Tabs) -> Listing
    ensures { result ≡ opened_list (ListOpening.Named t) }
{
    match t {
        Tabs::Horizontal => Listing::Sets(Target::Columns),
        Tabs::Vertical => Listing::Sets(Target::Channel(0)),
    }
}
