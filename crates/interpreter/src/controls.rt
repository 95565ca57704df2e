// The control bytes.
ghost use Rattle.std.specs.Prelude.{◌≡◌, [], ◌∷◌, ◌⊎◌, ◌≤◌, option_to_list};
ghost use Rattle.printer.specs.Deciding.{attempt, control_events};
ghost use Rattle.printer.specs.declared.commands.Command.{Command};
ghost use Rattle.printer.specs.declared.state.Printer.{Printer};
ghost use Rattle.registers.specs.declared.pending.Pending.{Pending};
ghost use Rattle.registers.specs.Held.{Held};
ghost use Rattle.interpreter.specs.Doing.{Did, Does};

use crate::lines::{carriage_return, form_feed, line_feed};
use crate::moves::backspace;
use crate::output::{Reason, passed_record};
use crate::settings::{end_wide_once, reduced_allowed, show_width, wide_once};
use crate::tabs::{horizontal_tab, vertical_tab};
use printer::commands::Control;
use printer::records::Record;
use registers::COUNT;
use registers::derived::Shown;

// SI: not at 15 cpi.
fn shift_in(m: &mut [u32; COUNT], b: u8) -> Option<Record>
    ensures { Does (λ (p : Printer). attempt p (Command.Control Control.ShiftIn b) 2 ∷ []) m.old m.new (option_to_list result) }
{
    if reduced_allowed(&*m) {
        show_width(m, Shown::Reduced, true);
        return None;
    }
    Some(passed_record(b, Reason::NotAllowed))
}

// ESC SO and ESC SI: no other control is an escape's second byte. (`control` in its place would be inlined twice, and cost letters and cards more
// than their limits.)
pub(crate) fn shift(m: &mut [u32; COUNT], c: Control, b: u8) -> Option<Record>
    requires fact { (c ≡ Control.ShiftOut) ⊎ (c ≡ Control.ShiftIn) }
    ensures { Does (λ (p : Printer). control_events p c b) m.old m.new (option_to_list result) }
{
    match c {
        Control::ShiftIn => shift_in(m, b),
        _ => {
            wide_once(m, true);
            None
        }
    }
}

// A control byte that is a command; the byte as it came.
pub(crate) fn control(m: &mut [u32; COUNT], c: Control, b: u8) -> Option<Record>
    ensures { (p : Printer) (v : Pending) → Held p v m.old → p.stops.channels.chosen ≤ 7
        → Did p v (control_events p c b) m.new (option_to_list result) }
{
    match c {
        Control::CarriageReturn => carriage_return(m),
        Control::LineFeed => Some(line_feed(m)),
        Control::FormFeed => Some(form_feed(m)),
        Control::HorizontalTab => horizontal_tab(m, b),
        Control::VerticalTab => vertical_tab(m),
        Control::Backspace => backspace(m, b),
        Control::ShiftOut => {
            wide_once(m, true);
            None
        }
        Control::ShiftIn => shift_in(m, b),
        Control::Dc2 => {
            show_width(m, Shown::Reduced, false);
            None
        }
        Control::Dc4 => {
            end_wide_once(m);
            None
        }
    }
}
