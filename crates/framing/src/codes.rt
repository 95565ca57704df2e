// The codes of commands, the bytes of an escape begun, and what a control byte or an escape's second byte is.
ghost use Rattle.std.specs.Prelude.{◌≡◌, ◌++◌};
ghost use Rattle.printer.specs.Tools.{lookup, coded};
ghost use Rattle.printer.specs.Escapes.{parameter_row, choice_row};
ghost use Rattle.printer.specs.Codes.{one_code, two_code, second_code, image_mode_number, begun_by, argument_escapes, other_escapes};
ghost use Rattle.printer.specs.Framing.{first_of, second_of, selected_of};
ghost use Rattle.framing.specs.Codes.{bytes_of};

use printer::commands::{
    Begun, Choice, Control, Density, First, ImageMode, Mode, Move, One, Parameter, Second, Side,
    Switch, Tabs, Two,
};
use printer::settings::Pitch;

// What a control byte is.
#[tactic(auto, unfolding(printer::specs::Tools::lookup, printer::specs::Tools::coded, printer::specs::Framing::controls, printer::specs::Codes::firsts))]
pub(crate) fn first_of(b: u8) -> First
    ensures { result ≡ first_of b }
{
    match b {
        0x08 => First::Control(Control::Backspace),
        0x09 => First::Control(Control::HorizontalTab),
        0x0A => First::Control(Control::LineFeed),
        0x0B => First::Control(Control::VerticalTab),
        0x0C => First::Control(Control::FormFeed),
        0x0D => First::Control(Control::CarriageReturn),
        0x0E => First::Control(Control::ShiftOut),
        0x0F => First::Control(Control::ShiftIn),
        0x12 => First::Control(Control::Dc2),
        0x14 => First::Control(Control::Dc4),
        0x1B => First::Escape,
        _ => First::Unlisted,
    }
}

// What an escape's second byte is. The table is in three functions for its length: first the escapes without an argument.
#[tactic(auto, unfolding(printer::specs::Tools::lookup, printer::specs::Tools::coded, printer::specs::Framing::escapes, printer::specs::Codes::seconds, printer::specs::Codes::plain_escapes, printer::specs::Escapes::modes, printer::specs::Escapes::looks))]
pub fn second_of(b: u8) -> Second
    ensures { result ≡ second_of b }
{
    match b {
        0x0E => Second::Control(Control::ShiftOut),
        0x0F => Second::Control(Control::ShiftIn),
        b'0' => Second::Mode(Mode::EighthInchLine),
        b'2' => Second::Mode(Mode::SixthInchLine),
        b'O' => Second::Mode(Mode::NoSkip),
        b'P' => Second::Mode(Mode::Pitch(Pitch::Cpi10)),
        b'M' => Second::Mode(Mode::Pitch(Pitch::Cpi12)),
        b'g' => Second::Mode(Mode::Pitch(Pitch::Cpi15)),
        b'6' => Second::Mode(Mode::UpperPrints(true)),
        b'7' => Second::Mode(Mode::UpperPrints(false)),
        b'E' => Second::Switch(Switch::Bold(true)),
        b'F' => Second::Switch(Switch::Bold(false)),
        b'G' => Second::Switch(Switch::DoubleStrike(true)),
        b'H' => Second::Switch(Switch::DoubleStrike(false)),
        b'4' => Second::Switch(Switch::Italic(true)),
        b'5' => Second::Switch(Switch::Italic(false)),
        b'T' => Second::Switch(Switch::NoScript),
        _ => begun_of(b),
    }
}

// The rest of the table: the escapes that have arguments or a list, and ESC @. First those with one argument that change a setting.
#[tactic(auto, unfolding(printer::specs::Tools::lookup, printer::specs::Tools::coded, printer::specs::Codes::argument_escapes, printer::specs::Escapes::parameters, printer::specs::Escapes::choices))]
pub fn begun_of(b: u8) -> Second
    ensures { result ≡ lookup (coded second_code (argument_escapes ++ other_escapes)) Second.Unlisted b }
{
    match b {
        b'3' => Second::Begins(Begun::One(One::Parameter(Parameter::Line180ths))),
        b'A' => Second::Begins(Begun::One(One::Parameter(Parameter::Line60ths))),
        b'+' => Second::Begins(Begun::One(One::Parameter(Parameter::Line360ths))),
        b' ' => Second::Begins(Begun::One(One::Parameter(Parameter::Spacing))),
        b'p' => Second::Begins(Begun::One(One::Parameter(Parameter::Proportional))),
        b'x' => Second::Begins(Begun::One(One::Parameter(Parameter::Quality))),
        b'W' => Second::Begins(Begun::One(One::Parameter(Parameter::DoubleWidth))),
        b'!' => Second::Begins(Begun::One(One::Parameter(Parameter::Master))),
        b'S' => Second::Begins(Begun::One(One::Choice(Choice::Script))),
        b'-' => Second::Begins(Begun::One(One::Choice(Choice::Underline))),
        b'w' => Second::Begins(Begun::One(One::Choice(Choice::DoubleHeight))),
        b'q' => Second::Begins(Begun::One(One::Choice(Choice::Outline))),
        b't' => Second::Begins(Begun::One(One::Choice(Choice::CodeTable))),
        b'k' => Second::Begins(Begun::One(One::Choice(Choice::Font))),
        b'R' => Second::Begins(Begun::One(One::Choice(Choice::Country))),
        b'%' => Second::Begins(Begun::One(One::Choice(Choice::Download))),
        _ => other_second(b),
    }
}

// The others.
#[tactic(auto, unfolding(printer::specs::Tools::lookup, printer::specs::Tools::coded, printer::specs::Codes::other_escapes))]
fn other_second(b: u8) -> Second
    ensures { result ≡ lookup (coded second_code other_escapes) Second.Unlisted b }
{
    match b {
        b'N' => Second::Begins(Begun::One(One::Skip)),
        b'J' => Second::Begins(Begun::One(One::Feed)),
        b'l' => Second::Begins(Begun::One(One::Margin(Side::Left))),
        b'Q' => Second::Begins(Begun::One(One::Margin(Side::Right))),
        b'/' => Second::Begins(Begun::One(One::Channel)),
        b'$' => Second::Begins(Begun::FirstOf(Two::Move(Move::Absolute))),
        b'\\' => Second::Begins(Begun::FirstOf(Two::Move(Move::Relative))),
        b'K' => Second::Begins(Begun::FirstOf(Two::Image(Density::Single))),
        b'L' => Second::Begins(Begun::FirstOf(Two::Image(Density::Double))),
        b'Y' => Second::Begins(Begun::FirstOf(Two::Image(Density::DoubleSpeed))),
        b'Z' => Second::Begins(Begun::FirstOf(Two::Image(Density::Quadruple))),
        b'C' => Second::Begins(Begun::PageLength),
        b'i' => Second::Begins(Begun::Advanced),
        b'*' => Second::Begins(Begun::SelectMode),
        b'b' => Second::Begins(Begun::ListChannel),
        b'D' => Second::List(Tabs::Horizontal),
        b'B' => Second::List(Tabs::Vertical),
        b'@' => Second::Reset,
        _ => Second::Unlisted,
    }
}

// The mode that a byte of ESC * selects.
#[tactic(auto, unfolding(printer::specs::Tools::lookup, printer::specs::Tools::coded, printer::specs::Framing::selections, printer::specs::Codes::image_modes))]
pub fn selected_of(b: u8) -> Option<ImageMode>
    ensures { result ≡ selected_of b }
{
    match b {
        0 => Some(ImageMode::Single),
        1 => Some(ImageMode::Double),
        2 => Some(ImageMode::DoubleSpeed),
        3 => Some(ImageMode::Quadruple),
        4 => Some(ImageMode::Crt80),
        6 => Some(ImageMode::Crt90),
        32 => Some(ImageMode::Single24),
        33 => Some(ImageMode::Double24),
        38 => Some(ImageMode::Crt24),
        39 => Some(ImageMode::Triple24),
        40 => Some(ImageMode::Hex24),
        _ => None,
    }
}

pub fn image_mode_number(m: ImageMode) -> u8
    ensures { result ≡ image_mode_number m }
{
    m as u8
}

pub fn parameter_code(c: Parameter) -> u8
    ensures { result ≡ (parameter_row c).code }
{
    c as u8
}

pub fn choice_code(c: Choice) -> u8
    ensures { result ≡ (choice_row c).code }
{
    c as u8
}

fn one_code(c: One) -> u8
    ensures { result ≡ one_code c }
{
    match c {
        One::Parameter(p) => parameter_code(p),
        One::Choice(k) => choice_code(k),
        One::Skip => b'N',
        One::Feed => b'J',
        One::Margin(side) => side as u8,
        One::Channel => b'/',
    }
}

fn two_code(c: Two) -> u8
    ensures { result ≡ two_code c }
{
    match c {
        Two::Move(m) => m as u8,
        Two::Image(d) => d as u8,
    }
}

pub fn list_code(t: Tabs) -> u8
    ensures { result ≡ second_code (Second.List t) }
{
    t as u8
}

// The second byte, and the arguments after it as far as they were received.
#[derive(Clone, Copy)]
pub enum BegunBytes {
    Code(u8),
    Argument(u8, u8),
    Arguments(u8, u8, u8),
}

// The bytes received of an escape whose arguments are still waited for.
pub fn begun_bytes(w: Begun) -> BegunBytes
    ensures { bytes_of result ≡ begun_by w }
{
    match w {
        Begun::One(c) => BegunBytes::Code(one_code(c)),
        Begun::PageLength => BegunBytes::Code(b'C'),
        Begun::PageInches => BegunBytes::Argument(b'C', 0),
        Begun::Advanced => BegunBytes::Code(b'i'),
        Begun::CommandMode => BegunBytes::Argument(b'i', b'a'),
        Begun::FirstOf(c) => BegunBytes::Code(two_code(c)),
        Begun::SecondOf(c, a) => BegunBytes::Argument(two_code(c), a),
        Begun::SelectMode => BegunBytes::Code(b'*'),
        Begun::ColumnsLow(m) => BegunBytes::Argument(b'*', image_mode_number(m)),
        Begun::ColumnsHigh(m, a) => BegunBytes::Arguments(b'*', image_mode_number(m), a),
        Begun::ListChannel => BegunBytes::Code(b'b'),
    }
}
