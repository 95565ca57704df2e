// The settings in force, in groups.
use crate::units::{Resolution, Units};

// What a start is asked for, as received.
#[derive(Clone, Copy)]
pub struct StartSettings {
    pub resolution: u32,
    pub autofeed: bool,
    pub width: u32,
}

// What ESC @ keeps: the settings of the start. `width` is that of the paper.
#[derive(Clone, Copy)]
pub struct Setup {
    pub resolution: Resolution,
    pub autofeed: bool,
    pub width: Units,
}

// How many letters stand in an inch.
#[derive(Clone, Copy, Default)]
pub enum Pitch {
    #[default]
    Cpi10 = 10,
    Cpi12 = 12,
    Cpi15 = 15,
}

// What the width of a letter depends on. `wide` is ESC W 1, `wideonce` is SO.
#[derive(Clone, Copy, Default)]
pub struct Width {
    pub pitch: Pitch,
    pub spacing: u8,
    pub wide: bool,
    pub wideonce: bool,
    pub reduced: bool,
    pub proportional: bool,
}

#[derive(Clone, Copy, Default)]
pub struct Emphasis {
    pub bold: bool,
    pub doublestrike: bool,
    pub italic: bool,
    pub underline: bool,
}

#[derive(Clone, Copy, Default)]
pub struct Script {
    pub superscript: bool,
    pub subscript: bool,
}

// What else a letter's record shows. `outline` is the ESC q number.
#[derive(Clone, Copy, Default)]
pub struct Face {
    pub font: u8,
    pub country: u8,
    pub outline: u8,
    pub doubleheight: bool,
    pub italictable: bool,
    pub download: bool,
}

#[derive(Clone, Copy)]
pub struct Margins {
    pub left: Units,
    pub right: Units,
}

// Page length, perforation skip and line amount.
#[derive(Clone, Copy)]
pub struct Paper {
    pub page: Units,
    pub skip: Units,
    pub line: Units,
}

// `draft` is ESC x 0; `upperprints` is ESC 6: 80h to 9Fh are letters.
#[derive(Clone, Copy)]
pub struct Settings {
    pub setup: Setup,
    pub width: Width,
    pub emphasis: Emphasis,
    pub script: Script,
    pub face: Face,
    pub margins: Margins,
    pub paper: Paper,
    pub draft: bool,
    pub upperprints: bool,
}
