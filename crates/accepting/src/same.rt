// Whether registers are those of the printer that they are read as.
ghost use Rattle.std.specs.Prelude.{◌≡◌};
ghost use Rattle.accepting.specs.Same.{is_flag, is_byte, is_pitch, same_pending, same_setup, same_width, same_emphasis, same_face, same_printing, same_derived, same_registers};

use measures::styles::style_of;
use measures::widths;
use printer::units::Units;
use registers::groups::{resolution_of, settings_in, width_in};
use registers::pending::Pending;
use registers::{
    ADVANCE, ADVANCE_DOTS, ARGUMENT, AUTO_FEED, BOLD, COLUMN_WIDTH, COMMAND, COUNT, COUNTRY,
    DOTS_ACROSS, DOTS_DOWN, DOUBLE_HEIGHT, DOUBLE_STRIKE, DOWNLOAD, DRAFT, FONT, IMAGE_BYTE,
    IMAGE_COLUMNS, IMAGE_MODE, ITALIC, ITALIC_TABLE, KIND, OUTLINE, PITCH, PROPORTIONAL, REDUCED,
    SPACING, STYLE, SUBSCRIPT, SUPERSCRIPT, UNDERLINE, UPPER_PRINTS, WIDE, WIDE_ONCE,
};

fn is_flag(n: u32) -> bool
    ensures { result ≡ is_flag n }
{
    n <= 1
}

fn is_byte(n: u32) -> bool
    ensures { result ≡ is_byte n }
{
    n <= 255
}

fn is_pitch(n: u32) -> bool
    ensures { result ≡ is_pitch n }
{
    matches!(n, 10 | 12 | 15)
}

fn same_pending(m: &[u32; COUNT], v: Pending) -> bool
    ensures { result ≡ same_pending m.now v }
{
    (m[KIND] == v.kind)
        & (m[COMMAND] == v.command as u32)
        & (m[ARGUMENT] == v.argument as u32)
        & (m[IMAGE_MODE] == v.mode as u32)
        & (m[IMAGE_BYTE] == v.part as u32)
        & (m[IMAGE_COLUMNS] == v.columns as u32)
}

fn same_setup(m: &[u32; COUNT]) -> bool
    ensures { result ≡ same_setup m.now }
{
    let resolution = resolution_of(m[DOTS_ACROSS]);
    (m[DOTS_ACROSS] == resolution.dots_across())
        & (m[DOTS_DOWN] == resolution.dots_down())
        & is_flag(m[AUTO_FEED])
}

fn same_width(m: &[u32; COUNT]) -> bool
    ensures { result ≡ same_width m.now }
{
    is_pitch(m[PITCH])
        & is_byte(m[SPACING])
        & is_flag(m[WIDE])
        & is_flag(m[WIDE_ONCE])
        & is_flag(m[REDUCED])
        & is_flag(m[PROPORTIONAL])
}

fn same_emphasis(m: &[u32; COUNT]) -> bool
    ensures { result ≡ same_emphasis m.now }
{
    is_flag(m[BOLD])
        & is_flag(m[DOUBLE_STRIKE])
        & is_flag(m[ITALIC])
        & is_flag(m[UNDERLINE])
        & is_flag(m[SUPERSCRIPT])
        & is_flag(m[SUBSCRIPT])
}

fn same_face(m: &[u32; COUNT]) -> bool
    ensures { result ≡ same_face m.now }
{
    is_byte(m[FONT])
        & is_byte(m[COUNTRY])
        & is_byte(m[OUTLINE])
        & is_flag(m[DOUBLE_HEIGHT])
        & is_flag(m[ITALIC_TABLE])
        & is_flag(m[DOWNLOAD])
}

fn same_printing(m: &[u32; COUNT]) -> bool
    ensures { result ≡ same_printing m.now }
{
    is_flag(m[DRAFT]) & is_flag(m[UPPER_PRINTS])
}

fn same_derived(m: &[u32; COUNT]) -> bool
    ensures { result ≡ same_derived m.now }
{
    let w = width_in(m);
    let resolution = resolution_of(m[DOTS_ACROSS]);
    (m[STYLE] == style_of(settings_in(m)) as u32)
        & (m[ADVANCE] == widths::advance(w).0)
        & (m[COLUMN_WIDTH] == widths::column_width(w).0)
        & widths::is_advance_dots(m[ADVANCE_DOTS], resolution, w)
}

#[tactic(auto, unfolding(crate::specs::Same::same_registers))]
pub(crate) fn same_registers(m: &[u32; COUNT], v: Pending) -> bool
    ensures { result ≡ same_registers m.now v }
{
    same_pending(m, v)
        && same_setup(m)
        && same_width(m)
        && same_emphasis(m)
        && same_face(m)
        && same_printing(m)
        && same_derived(m)
}
