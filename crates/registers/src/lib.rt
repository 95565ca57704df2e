// The state as registers: numbers at fixed places in memory that is lent.
#![tactic(auto)]

pub mod derived;
pub mod groups;
pub mod pack;
pub mod pending;
pub mod power_on;
pub mod stores;
pub mod unpack;

use printer::stops::{Channels, TabStops};

// How many registers there are.
pub const COUNT: usize = 244;

// What is waited for: its kind, the escape's second byte, the argument or list byte before; an image's mode, or the channel that a list sets; the
// byte of a column that comes, and the columns left.
pub const KIND: usize = 0;

pub const COMMAND: usize = KIND + 1;

pub const ARGUMENT: usize = KIND + 2;

pub const IMAGE_MODE: usize = KIND + 3;

pub const IMAGE_BYTE: usize = KIND + 4;

pub const IMAGE_COLUMNS: usize = KIND + 5;

// The place.
pub const ACROSS: usize = IMAGE_COLUMNS + 1;

pub const DOWN: usize = ACROSS + 1;

// Margins, and the page.
pub const LEFT: usize = DOWN + 1;

pub const RIGHT: usize = LEFT + 1;

pub const PAGE: usize = RIGHT + 1;

pub const SKIP: usize = PAGE + 1;

pub const LINE: usize = PAGE + 2;

// The settings of the start: the dots of an inch across and down (which follow from each other), automatic line feed,
// the width of the paper.
pub const DOTS_ACROSS: usize = LINE + 1;

pub const DOTS_DOWN: usize = DOTS_ACROSS + 1;

pub const AUTO_FEED: usize = DOTS_ACROSS + 2;

pub const PAPER_WIDTH: usize = DOTS_ACROSS + 3;

// What the width of a letter depends on.
pub const PITCH: usize = PAPER_WIDTH + 1;

pub const SPACING: usize = PITCH + 1;

pub const WIDE: usize = PITCH + 2;

pub const WIDE_ONCE: usize = PITCH + 3;

pub const REDUCED: usize = PITCH + 4;

pub const PROPORTIONAL: usize = PITCH + 5;

// How a letter looks.
pub const BOLD: usize = PROPORTIONAL + 1;

pub const DOUBLE_STRIKE: usize = BOLD + 1;

pub const ITALIC: usize = BOLD + 2;

pub const UNDERLINE: usize = BOLD + 3;

pub const SUPERSCRIPT: usize = UNDERLINE + 1;

pub const SUBSCRIPT: usize = SUPERSCRIPT + 1;

pub const FONT: usize = SUBSCRIPT + 1;

pub const COUNTRY: usize = FONT + 1;

pub const OUTLINE: usize = FONT + 2;

pub const DOUBLE_HEIGHT: usize = FONT + 3;

pub const ITALIC_TABLE: usize = FONT + 4;

pub const DOWNLOAD: usize = FONT + 5;

// Draft quality, and whether 80h to 9Fh print.
pub const DRAFT: usize = DOWNLOAD + 1;

pub const UPPER_PRINTS: usize = DRAFT + 1;

// What follows from the settings: style bits, advance, column width, and the advance in dots across, as an exact step.
pub const STYLE: usize = UPPER_PRINTS + 1;

pub const ADVANCE: usize = STYLE + 1;

pub const COLUMN_WIDTH: usize = STYLE + 2;

pub const ADVANCE_DOTS: usize = STYLE + 3;

// The chosen channel; then two lists of stops, each a count and its stops.
pub const CHOSEN: usize = ADVANCE_DOTS + 1;

pub const COLUMN_COUNT: usize = CHOSEN + 1;

pub const COLUMN_STOPS: usize = COLUMN_COUNT + 1;

pub const GATHERED_COUNT: usize = COLUMN_STOPS + TabStops::ROOM;

pub const GATHERED_STOPS: usize = GATHERED_COUNT + 1;

// The channels: a count for each, 0 if it was never set, else one more than its stops; and sixteen places for each.
pub const CHANNEL_COUNTS: usize = GATHERED_STOPS + TabStops::ROOM;

pub const CHANNEL_STOPS: usize = CHANNEL_COUNTS + Channels::NUMBER;
