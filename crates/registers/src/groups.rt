// The groups of the state that registers are read as, whatever they are.
ghost use Rattle.std.specs.Prelude.{◌≡◌};
ghost use Rattle.registers.specs.Layout.{flag, pitch_number};
ghost use Rattle.registers.specs.Groups.{pitch_of, resolution_of, place_in, setup_in, width_in, emphasis_in, script_in, face_in, margins_in, paper_in, settings_in};

use crate::{
    ACROSS, AUTO_FEED, BOLD, COUNT, COUNTRY, DOTS_ACROSS, DOUBLE_HEIGHT, DOUBLE_STRIKE, DOWN,
    DOWNLOAD, DRAFT, FONT, ITALIC, ITALIC_TABLE, LEFT, LINE, OUTLINE, PAGE, PAPER_WIDTH, PITCH,
    PROPORTIONAL, REDUCED, RIGHT, SKIP, SPACING, SUBSCRIPT, SUPERSCRIPT, UNDERLINE, UPPER_PRINTS,
    WIDE, WIDE_ONCE,
};
use printer::settings::{Emphasis, Face, Margins, Paper, Pitch, Script, Settings, Setup, Width};
use printer::state::Place;
use printer::units::{Resolution, Units};

// A setting that is on or off.
pub fn flag(on: bool) -> u32
    ensures { result ≡ flag on }
{
    u32::from(on)
}

pub fn pitch_number(p: Pitch) -> u32
    ensures { result ≡ pitch_number p }
{
    p as u32
}

fn pitch_of(n: u32) -> Pitch
    ensures { result ≡ pitch_of n }
{
    match n {
        10 => Pitch::Cpi10,
        12 => Pitch::Cpi12,
        _ => Pitch::Cpi15,
    }
}

pub fn resolution_of(n: u32) -> Resolution
    ensures { result ≡ resolution_of n }
{
    match n {
        300 => Resolution::Dots300,
        _ => Resolution::Dots203,
    }
}

pub fn place_in(m: &[u32; COUNT]) -> Place
    ensures { result ≡ place_in m.now }
{
    Place {
        across: Units(m[ACROSS]),
        down: Units(m[DOWN]),
    }
}

pub fn setup_in(m: &[u32; COUNT]) -> Setup
    ensures { result ≡ setup_in m.now }
{
    Setup {
        resolution: resolution_of(m[DOTS_ACROSS]),
        autofeed: m[AUTO_FEED] == 1,
        width: Units(m[PAPER_WIDTH]),
    }
}

pub fn width_in(m: &[u32; COUNT]) -> Width
    ensures { result ≡ width_in m.now }
{
    Width {
        pitch: pitch_of(m[PITCH]),
        spacing: (m[SPACING] % 256) as u8,
        wide: m[WIDE] == 1,
        wideonce: m[WIDE_ONCE] == 1,
        reduced: m[REDUCED] == 1,
        proportional: m[PROPORTIONAL] == 1,
    }
}

fn emphasis_in(m: &[u32; COUNT]) -> Emphasis
    ensures { result ≡ emphasis_in m.now }
{
    Emphasis {
        bold: m[BOLD] == 1,
        doublestrike: m[DOUBLE_STRIKE] == 1,
        italic: m[ITALIC] == 1,
        underline: m[UNDERLINE] == 1,
    }
}

fn script_in(m: &[u32; COUNT]) -> Script
    ensures { result ≡ script_in m.now }
{
    Script {
        superscript: m[SUPERSCRIPT] == 1,
        subscript: m[SUBSCRIPT] == 1,
    }
}

fn face_in(m: &[u32; COUNT]) -> Face
    ensures { result ≡ face_in m.now }
{
    Face {
        font: (m[FONT] % 256) as u8,
        country: (m[COUNTRY] % 256) as u8,
        outline: (m[OUTLINE] % 256) as u8,
        doubleheight: m[DOUBLE_HEIGHT] == 1,
        italictable: m[ITALIC_TABLE] == 1,
        download: m[DOWNLOAD] == 1,
    }
}

pub fn margins_in(m: &[u32; COUNT]) -> Margins
    ensures { result ≡ margins_in m.now }
{
    Margins {
        left: Units(m[LEFT]),
        right: Units(m[RIGHT]),
    }
}

pub fn paper_in(m: &[u32; COUNT]) -> Paper
    ensures { result ≡ paper_in m.now }
{
    Paper {
        page: Units(m[PAGE]),
        skip: Units(m[SKIP]),
        line: Units(m[LINE]),
    }
}

#[tactic(auto, unfolding(crate::specs::Groups::settings_in))]
pub fn settings_in(m: &[u32; COUNT]) -> Settings
    ensures { result ≡ settings_in m.now }
{
    Settings {
        setup: setup_in(m),
        width: width_in(m),
        emphasis: emphasis_in(m),
        script: script_in(m),
        face: face_in(m),
        margins: margins_in(m),
        paper: paper_in(m),
        draft: m[DRAFT] == 1,
        upperprints: m[UPPER_PRINTS] == 1,
    }
}
