// What is waited for, as numbers and back.
ghost use Rattle.std.specs.Prelude.{◌≡◌, drop};
ghost use Rattle.printer.specs.Codes.{begun_by};
ghost use Rattle.printer.specs.Framing.{advanced_frame};
ghost use Rattle.printer.specs.Tools.{lookup};
ghost use Rattle.printer.specs.declared.commands.Begun.{Begun};
ghost use Rattle.printer.specs.declared.commands.Listing.{Listing};
ghost use Rattle.printer.specs.declared.commands.Waiting.{Waiting};
ghost use Rattle.registers.specs.Stores.{pended};
ghost use Rattle.registers.specs.State.{pending, escaped, pending_bytes, pending_list, pending_of, begins, waits_in, argued, resumed, on_channel, listed_as, listed, imaged, kinds, waiting_of, pending_in};

use crate::{ARGUMENT, COMMAND, COUNT, IMAGE_BYTE, IMAGE_COLUMNS, IMAGE_MODE, KIND};
use framing::codes::BegunBytes;
use framing::{codes, named_list};
use printer::commands::{Begun, Listing, Second, Tabs, Target, Waiting};

// A kind, the escape's second byte, the argument or list byte before; an image's mode or a list's channel, the byte of a column that comes, and the
// columns left.
#[derive(Clone, Copy)]
pub struct Pending {
    pub kind: u32,
    pub command: u8,
    pub argument: u8,
    pub mode: u8,
    pub part: u8,
    pub columns: u16,
}

impl Pending {
    // Nothing is waited for. Of other kinds, what a kind does not use is so, too.
    const NOTHING: Pending = Pending {
        kind: 0,
        command: 0,
        argument: 0,
        mode: 0,
        part: 0,
        columns: 0,
    };
}

// Of an escape or a list.
fn escaped(kind: u32, command: u8, argument: u8) -> Pending
    ensures { result ≡ escaped kind command argument }
{
    Pending {
        kind,
        command,
        argument,
        ..Pending::NOTHING
    }
}

// The same with an image's mode, or with a list's channel.
fn with_mode(kind: u32, command: u8, mode: u8, argument: u8) -> Pending
    ensures { result ≡ pending kind command argument mode 0 0 }
{
    Pending {
        mode,
        ..escaped(kind, command, argument)
    }
}

fn pending_begun(w: Begun) -> Pending
    ensures { result ≡ pending_bytes (begun_by w) }
{
    match codes::begun_bytes(w) {
        BegunBytes::Code(code) => escaped(2, code, 0),
        BegunBytes::Argument(code, argument) => escaped(3, code, argument),
        BegunBytes::Arguments(code, mode, argument) => with_mode(6, code, mode, argument),
    }
}

// Of a list that sets stops.
fn pending_target(t: Target, b: u8) -> Pending
    ensures { result ≡ pending_list (Listing.Sets t) b }
{
    match t {
        Target::Columns => escaped(4, codes::list_code(Tabs::Horizontal), b),
        Target::Channel(c) => with_mode(4, codes::list_code(Tabs::Vertical), c, b),
    }
}

fn pending_list(k: Listing, b: u8) -> Pending
    ensures { result ≡ pending_list k b }
{
    match k {
        Listing::Sets(t) => pending_target(t, b),
        Listing::Dropped => escaped(7, 0, b),
    }
}

// The kind's number, with the numbers that the kind uses.
pub fn pending_of(w: Waiting) -> Pending
    ensures { result ≡ pending_of w }
{
    match w {
        Waiting::Nothing => Pending::NOTHING,
        Waiting::SecondByte => escaped(1, 0, 0),
        Waiting::Arguments(b) => pending_begun(b),
        Waiting::StopList(k, b) => pending_list(k, b),
        Waiting::ImageData(m, k, n) => Pending {
            kind: 5,
            mode: codes::image_mode_number(m),
            part: k,
            columns: n,
            ..Pending::NOTHING
        },
    }
}

// What an escape's second byte begins.
fn begins(code: u8) -> Waiting
    ensures { result ≡ begins code }
{
    match codes::begun_of(code) {
        Second::Begins(w) => Waiting::Arguments(w),
        Second::List(t) => Waiting::StopList(named_list(t), 0),
        _ => Waiting::Nothing,
    }
}

// After the third byte of ESC i, if an argument follows.
fn advanced(b: u8) -> Waiting
    ensures { result ≡ waits_in (advanced_frame b) }
{
    match b {
        b'a' => Waiting::Arguments(Begun::CommandMode),
        _ => Waiting::Nothing,
    }
}

// After the mode of ESC *, if it is listed.
fn mode_selected(b: u8) -> Waiting
    ensures { result ≡ argued Begun.SelectMode b }
{
    match codes::selected_of(b) {
        Some(m) => Waiting::Arguments(Begun::ColumnsLow(m)),
        None => Waiting::Nothing,
    }
}

// After an argument, if another follows.
fn argued(w: Begun, a: u8) -> Waiting
    ensures { result ≡ argued w a }
{
    match w {
        Begun::PageLength if a == 0 => Waiting::Arguments(Begun::PageInches),
        Begun::Advanced => advanced(a),
        Begun::FirstOf(c) => Waiting::Arguments(Begun::SecondOf(c, a)),
        Begun::SelectMode => mode_selected(a),
        Begun::ColumnsLow(m) => Waiting::Arguments(Begun::ColumnsHigh(m, a)),
        _ => Waiting::Nothing,
    }
}

// After a byte of it, which is an argument.
fn resumed(begun: Waiting, b: u8) -> Waiting
    ensures { result ≡ resumed begun b }
{
    match begun {
        Waiting::Arguments(w) => argued(w, b),
        _ => Waiting::Nothing,
    }
}

// A list for a channel, after a byte of it.
fn on_channel(t: Target, channel: u8) -> Target
    ensures { result ≡ on_channel t channel }
{
    match t {
        Target::Columns => Target::Columns,
        Target::Channel(_) => Target::Channel(channel),
    }
}

fn listed_as(k: Listing, channel: u8, b: u8) -> Waiting
    ensures { result ≡ listed_as k channel b }
{
    match k {
        Listing::Sets(t) => Waiting::StopList(Listing::Sets(on_channel(t, channel)), b),
        Listing::Dropped => Waiting::Nothing,
    }
}

fn listed(begun: Waiting, channel: u8, b: u8) -> Waiting
    ensures { result ≡ listed begun channel b }
{
    match begun {
        Waiting::StopList(k, _) => listed_as(k, channel, b),
        _ => Waiting::Nothing,
    }
}

// Image data by its mode.
fn imaged(mode: u8, k: u8, n: u16) -> Waiting
    ensures { result ≡ imaged mode k n }
{
    match codes::selected_of(mode) {
        Some(m) => Waiting::ImageData(m, k, n),
        None => Waiting::Nothing,
    }
}

// The kinds of an escape whose second byte was received.
#[tactic(auto, unfolding(crate::specs::State::kinds, printer::specs::Tools::lookup))]
fn waiting_begun(v: Pending) -> Waiting
    ensures { result ≡ lookup (drop 2 (kinds (begins v.command) v)) Waiting.Nothing v.kind }
{
    let begun = begins(v.command);
    match v.kind {
        2 => begun,
        3 => resumed(begun, v.argument),
        4 => listed(begun, v.mode, v.argument),
        5 => imaged(v.mode, v.part, v.columns),
        6 => resumed(resumed(begun, v.mode), v.argument),
        7 => Waiting::StopList(Listing::Dropped, v.argument),
        _ => Waiting::Nothing,
    }
}

// What the numbers are read as.
#[tactic(auto, unfolding(crate::specs::State::kinds, printer::specs::Tools::lookup))]
pub(crate) fn waiting_of(v: Pending) -> Waiting
    ensures { result ≡ waiting_of v }
{
    match v.kind {
        0 => Waiting::Nothing,
        1 => Waiting::SecondByte,
        _ => waiting_begun(v),
    }
}

// The numbers in the registers, as their types hold them.
pub(crate) fn pending_in(m: &[u32; COUNT]) -> Pending
    ensures { result ≡ pending_in m.now }
{
    Pending {
        kind: m[KIND],
        command: (m[COMMAND] % 256) as u8,
        argument: (m[ARGUMENT] % 256) as u8,
        mode: (m[IMAGE_MODE] % 256) as u8,
        part: (m[IMAGE_BYTE] % 256) as u8,
        columns: (m[IMAGE_COLUMNS] % 65536) as u16,
    }
}

pub fn waiting_in(m: &[u32; COUNT]) -> Waiting
    ensures { result ≡ waiting_of (pending_in m.now) }
{
    waiting_of(pending_in(m))
}

pub fn store_pending(m: &mut [u32; COUNT], v: Pending)
    ensures { m.new ≡ pended v m.old }
{
    m[KIND] = v.kind;
    m[COMMAND] = v.command as u32;
    m[ARGUMENT] = v.argument as u32;
    m[IMAGE_MODE] = v.mode as u32;
    m[IMAGE_BYTE] = v.part as u32;
    m[IMAGE_COLUMNS] = v.columns as u32;
}
