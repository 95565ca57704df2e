// The style bits of the settings.
ghost use Rattle.std.specs.Prelude.{◌≡◌, ◌+◌, ◌*◌, ◌%◌, ◌≤◌};
ghost use Rattle.printer.specs.Tools.{pick};
ghost use Rattle.printer.specs.Records.{style_of};
ghost use Rattle.measures.specs.Styles.{emphasis_style, script_style, width_style, face_style};

use crate::widths;
use printer::settings::{Emphasis, Face, Script, Settings, Width};

// A style bit, if it is on.
fn flag(on: bool, value: u16) -> u16
    ensures { (result ≡ pick on value 0) × (result ≤ value) }
{
    if on { value } else { 0 }
}

fn emphasis_style(e: Emphasis) -> u16
    ensures { (result ≡ emphasis_style e) × (result ≤ 0xF) }
{
    flag(e.bold, 0x1) + flag(e.doublestrike, 0x2) + flag(e.italic, 0x4) + flag(e.underline, 0x8)
}

fn script_style(t: Script) -> u16
    ensures { (result ≡ script_style t) × (result ≤ 0x30) }
{
    flag(t.superscript, 0x10) + flag(t.subscript, 0x20)
}

fn width_style(w: Width) -> u16
    ensures { (result ≡ width_style w) × (result ≤ 0xC40) }
{
    flag(widths::double_width(w), 0x40) + flag(w.proportional, 0x400) + flag(w.reduced, 0x800)
}

fn face_style(f: Face) -> u16
    ensures { (result ≡ face_style f) × (result ≤ 0x3380) }
{
    let outline = f.outline as u16 % 4 * 0x100;
    flag(f.doubleheight, 0x80) + outline + flag(f.italictable, 0x1000) + flag(f.download, 0x2000)
}

// The style bits.
#[tactic(auto, unfolding(printer::specs::Records::style_of))]
pub fn style_of(s: Settings) -> u16
    ensures { result ≡ style_of s }
{
    emphasis_style(s.emphasis) + script_style(s.script) + width_style(s.width) + face_style(s.face)
}
