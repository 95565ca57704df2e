// Moves along the line: BS, ESC $, ESC \.
ghost use Rattle.std.specs.Prelude.{◌≡◌, [], ◌∷◌, ◌≤◌, option_to_list};
ghost use Rattle.printer.specs.Tools.{pick};
ghost use Rattle.printer.specs.Deciding.{attempt};
ghost use Rattle.printer.specs.declared.commands.Command.{Command};
ghost use Rattle.printer.specs.declared.commands.Control.{Control};
ghost use Rattle.printer.specs.declared.state.Printer.{Printer};
ghost use Rattle.interpreter.specs.Doing.{Leaves, Does};
ghost use Rattle.interpreter.specs.Reaching.{relative_to};
ghost use Rattle.interpreter.specs.Leaving.{moved_to, move_or_pass, Writes};

use crate::output::{Reason, passed_record};
use crate::positions::{leftward, rightward};
use printer::commands::Move;
use printer::records::Record;
use printer::settings::Margins;
use printer::units::Units;
use registers::groups::margins_in;
use registers::{ACROSS, ADVANCE, COUNT, DRAFT, LEFT, RIGHT};

// To another position of the line.
pub(crate) fn move_to(m: &mut [u32; COUNT], across: Units)
    ensures { Leaves m.old m.new (λ (p : Printer). moved_to p across.0) }
{
    m[ACROSS] = across.0;
}

// To a position; passed over if it is outside.
fn move_or_pass(m: &mut [u32; COUNT], to: Option<Units>, b: u8) -> Option<Record>
    ensures { Writes (λ (p : Printer). move_or_pass p to b) m.old m.new (option_to_list result) }
{
    let Some(across) = to else {
        return Some(passed_record(b, Reason::PastLimits));
    };
    move_to(m, across);
    None
}

// BS: the advance further left.
pub(crate) fn backspace(m: &mut [u32; COUNT], b: u8) -> Option<Record>
    ensures { Does (λ (p : Printer). attempt p (Command.Control Control.Backspace b) 3 ∷ []) m.old m.new (option_to_list result) }
{
    let to = leftward(Units(m[ACROSS]), Units(m[ADVANCE]), Units(m[LEFT]));
    move_or_pass(m, to, b)
}

// ESC $: so many sixtieths of an inch from the left margin.
fn absolute(m: &mut [u32; COUNT], a: u8, b: u8) -> Option<Record>
    ensures { Does (λ (p : Printer). attempt p (Command.Move Move.Absolute a b) 3 ∷ []) m.old m.new (option_to_list result) }
{
    let to = rightward(
        Units(m[LEFT]),
        Units(60 * u16::from_le_bytes([a, b]) as u32),
        Units(m[RIGHT]),
    );
    move_or_pass(m, to, b'$')
}

// The units of one step of ESC \.
fn relative_step(draft: bool) -> u32
    ensures { (result ≡ pick draft 30 20) × (result ≤ 30) }
{
    if draft { 30 } else { 20 }
}

// A signed move of 16 bits, in steps.
fn relative_to(margins: Margins, across: Units, n: u16, step: u32) -> Option<Units>
    requires { step ≤ 30 }
    ensures { result ≡ relative_to margins across.0 n step }
{
    let left = margins.left;
    let right = margins.right;
    if n < 0x8000 {
        return rightward(across, Units(n as u32 * step), right);
    }
    leftward(across, Units((0x10000 - n as u32) * step), left)
}

// ESC \: right or left.
fn relative(m: &mut [u32; COUNT], a: u8, b: u8) -> Option<Record>
    ensures { Does (λ (p : Printer). attempt p (Command.Move Move.Relative a b) 3 ∷ []) m.old m.new (option_to_list result) }
{
    let step = relative_step(m[DRAFT] == 1);
    let to = relative_to(
        margins_in(&*m),
        Units(m[ACROSS]),
        u16::from_le_bytes([a, b]),
        step,
    );
    move_or_pass(m, to, b'\\')
}

// A move by two argument bytes.
pub(crate) fn move_by(m: &mut [u32; COUNT], k: Move, a: u8, b: u8) -> Option<Record>
    ensures { Does (λ (p : Printer). attempt p (Command.Move k a b) 3 ∷ []) m.old m.new (option_to_list result) }
{
    match k {
        Move::Absolute => absolute(m, a, b),
        Move::Relative => relative(m, a, b),
    }
}
