// One byte that is neither a letter nor of an image: a control byte, or a byte of an escape or a list.
ghost use Rattle.std.specs.Prelude.{◌≡◌, [], ◌∷◌, List, ℕ, option_to_list, None};
ghost use Rattle.printer.specs.Accepted.{Accepted};
ghost use Rattle.printer.specs.Deciding.{decide};
ghost use Rattle.printer.specs.Framing.{first_frame, second_of, one_command};
ghost use Rattle.printer.specs.Steps.{frame_at};
ghost use Rattle.printer.specs.declared.commands.Begun.{Begun};
ghost use Rattle.printer.specs.declared.commands.Control.{Control};
ghost use Rattle.printer.specs.declared.commands.First.{First};
ghost use Rattle.printer.specs.declared.commands.Listing.{Listing};
ghost use Rattle.printer.specs.declared.commands.Waiting.{Waiting};
ghost use Rattle.printer.specs.declared.state.Printer.{Printer};
ghost use Rattle.registers.specs.declared.pending.Pending.{Pending};
ghost use Rattle.registers.specs.Held.{Held};
ghost use Rattle.interpreter.specs.Doing.{Did};
ghost use Rattle.interpreter.specs.Taking.{Current, stepping, StepPromise};

use crate::controls::{control, shift};
use crate::escapes::{argument, mode, switch};
use crate::lines::{feed, line_feed};
use crate::lists::{choose, end_list, list_byte, open_list};
use crate::margins::margin;
use crate::moves::move_by;
use crate::output::{Reason, passed_record};
use crate::pages::{page, reset, skip};
use framing::codes::selected_of;
use framing::{density_mode, image_wait, named_list};
use printer::commands::{Begun, First, Listing, One, Page, Second, Target, Two, Waiting};
use printer::records::Record;
use registers::COUNT;

// What is waited for after a byte, and the record that it writes.
#[derive(Drop)]
pub(crate) struct Stepping {
    pub waiting: Waiting,
    pub wrote: Option<Record>,
}

// A byte that is no letter, by what it is.
pub(crate) fn control_step(m: &mut [u32; COUNT], f: First, b: u8) -> Stepping
    ensures { (p : Printer) (v : Pending) → Current p v Waiting.Nothing m.old → frame_at p b ≡ first_frame f b
        → StepPromise p v b result.waiting (option_to_list result.wrote) m.new }
{
    match f {
        First::Control(c) => whole(control(m, c, b)),
        First::Escape => waits(Waiting::SecondByte),
        First::Unlisted => whole(Some(passed_record(b, Reason::Unlisted))),
    }
}

// LF, which always writes a record.
#[inline(always)]
pub(crate) fn line_step(m: &mut [u32; COUNT]) -> Record
    ensures { (p : Printer) (v : Pending) (b : ℕ) → Current p v Waiting.Nothing m.old → frame_at p b ≡ first_frame (First.Control Control.LineFeed) b
        → StepPromise p v b Waiting.Nothing (result ∷ []) m.new }
{
    line_feed(m)
}

// A command is whole.
fn whole(wrote: Option<Record>) -> Stepping
    ensures { result ≡ stepping Waiting.Nothing wrote }
{
    Stepping {
        waiting: Waiting::Nothing,
        wrote,
    }
}

// More bytes are waited for, and nothing is written.
fn waits(next: Waiting) -> Stepping
    ensures { result ≡ stepping next None }
{
    Stepping {
        waiting: next,
        wrote: None,
    }
}

// An escape's second byte, by what it is.
pub(crate) fn second_step(m: &mut [u32; COUNT], s: Second, b: u8) -> Stepping
    requires s_value { s ≡ second_of b }
    ensures { (p : Printer) (v : Pending) → Current p v Waiting.SecondByte m.old
        → StepPromise p v b result.waiting (option_to_list result.wrote) m.new }
{
    match s {
        Second::Control(c) => whole(shift(m, c, b)),
        Second::Reset => whole(Some(reset(m))),
        Second::Mode(k) => {
            mode(m, k);
            whole(None)
        }
        Second::Switch(w) => {
            switch(m, w);
            whole(None)
        }
        Second::Begins(w) => waits(Waiting::Arguments(w)),
        Second::List(t) => {
            open_list(m);
            waits(Waiting::StopList(named_list(t), 0))
        }
        Second::Unlisted => whole(Some(passed_record(b, Reason::Unlisted))),
    }
}

// The one argument of an escape.
fn one_argument(m: &mut [u32; COUNT], c: One, n: u8) -> Option<Record>
    ensures { (p : Printer) (v : Pending) → Held p v m.old → Accepted p
        → Did p v (decide p (one_command c n)) m.new (option_to_list result) }
{
    match c {
        One::Parameter(k) => argument(m, k, n),
        One::Choice(k) => argument(m, k, n),
        One::Skip => skip(m, n),
        One::Feed => Some(feed(m, n)),
        One::Margin(side) => Some(margin(m, side, n)),
        One::Channel => choose(m, n),
    }
}

// The argument of ESC C: 0 says that inches follow.
fn page_step(m: &mut [u32; COUNT], n: u8) -> Stepping
    ensures { (p : Printer) (v : Pending) → Current p v (Waiting.Arguments Begun.PageLength) m.old
        → StepPromise p v n result.waiting (option_to_list result.wrote) m.new }
{
    if n == 0 {
        return waits(Waiting::Arguments(Begun::PageInches));
    }
    whole(Some(page(m, Page::Lines(n))))
}

// The second of two arguments: an image's say how many columns of data follow.
fn two_step(m: &mut [u32; COUNT], c: Two, a: u8, b: u8) -> Stepping
    ensures { (p : Printer) (v : Pending) → Current p v (Waiting.Arguments (Begun.SecondOf c a)) m.old
        → StepPromise p v b result.waiting (option_to_list result.wrote) m.new }
{
    match c {
        Two::Move(k) => whole(move_by(m, k, a, b)),
        Two::Image(d) => waits(image_wait(density_mode(d), u16::from_le_bytes([a, b]))),
    }
}

// The third byte of ESC i.
fn advanced_step(b: u8) -> Stepping
    ensures { (p : Printer) (v : Pending) (m : List ℕ) → Current p v (Waiting.Arguments Begun.Advanced) m
        → StepPromise p v b result.waiting (option_to_list result.wrote) m }
{
    match b {
        b'a' => waits(Waiting::Arguments(Begun::CommandMode)),
        b'S' => whole(None),
        _ => whole(Some(passed_record(b, Reason::Unlisted))),
    }
}

// The argument of ESC i a: 0 keeps ESC/P mode.
fn mode_step(n: u8) -> Stepping
    ensures { (p : Printer) (v : Pending) (m : List ℕ) → Current p v (Waiting.Arguments Begun.CommandMode) m
        → StepPromise p v n result.waiting (option_to_list result.wrote) m }
{
    if n == 0 {
        return whole(None);
    }
    whole(Some(passed_record(b'i', Reason::NotAllowed)))
}

// The mode of ESC *.
fn select_step(b: u8) -> Stepping
    ensures { (p : Printer) (v : Pending) (m : List ℕ) → Current p v (Waiting.Arguments Begun.SelectMode) m
        → StepPromise p v b result.waiting (option_to_list result.wrote) m }
{
    match selected_of(b) {
        Some(mode) => waits(Waiting::Arguments(Begun::ColumnsLow(mode))),
        None => whole(Some(passed_record(b'*', Reason::NotAllowed))),
    }
}

// The channel of ESC b: above 7 its list is dropped.
fn channel_step(m: &mut [u32; COUNT], c: u8) -> Stepping
    ensures { (p : Printer) (v : Pending) → Current p v (Waiting.Arguments Begun.ListChannel) m.old
        → StepPromise p v c result.waiting (option_to_list result.wrote) m.new }
{
    if c <= 7 {
        open_list(m);
        return waits(Waiting::StopList(Listing::Sets(Target::Channel(c)), 0));
    }
    Stepping {
        waiting: Waiting::StopList(Listing::Dropped, 0),
        wrote: Some(passed_record(b'b', Reason::NotAllowed)),
    }
}

// An argument of an escape, by those so far.
pub(crate) fn argument_step(m: &mut [u32; COUNT], w: Begun, b: u8) -> Stepping
    ensures { (p : Printer) (v : Pending) → Current p v (Waiting.Arguments w) m.old
        → StepPromise p v b result.waiting (option_to_list result.wrote) m.new }
{
    match w {
        Begun::One(c) => whole(one_argument(m, c, b)),
        Begun::PageLength => page_step(m, b),
        Begun::PageInches => whole(Some(page(m, Page::Inches(b)))),
        Begun::Advanced => advanced_step(b),
        Begun::CommandMode => mode_step(b),
        Begun::FirstOf(c) => waits(Waiting::Arguments(Begun::SecondOf(c, b))),
        Begun::SecondOf(c, a) => two_step(m, c, a, b),
        Begun::SelectMode => select_step(b),
        Begun::ColumnsLow(mode) => waits(Waiting::Arguments(Begun::ColumnsHigh(mode, b))),
        Begun::ColumnsHigh(mode, a) => waits(image_wait(mode, u16::from_le_bytes([a, b]))),
        Begun::ListChannel => channel_step(m, b),
    }
}

// A byte of a list that sets stops: one that is not above the byte before ends it.
fn set_step(m: &mut [u32; COUNT], t: Target, before: u8, b: u8) -> Stepping
    ensures { (p : Printer) (v : Pending) → Current p v (Waiting.StopList (Listing.Sets t) before) m.old
        → StepPromise p v b result.waiting (option_to_list result.wrote) m.new }
{
    if b <= before {
        end_list(m, t);
        return whole(None);
    }
    Stepping {
        waiting: Waiting::StopList(Listing::Sets(t), b),
        wrote: list_byte(m, t, b),
    }
}

// A byte of a list that is dropped.
fn dropped_step(before: u8, b: u8) -> Stepping
    ensures { (p : Printer) (v : Pending) (m : List ℕ) → Current p v (Waiting.StopList Listing.Dropped before) m
        → StepPromise p v b result.waiting (option_to_list result.wrote) m }
{
    if b <= before {
        return whole(None);
    }
    waits(Waiting::StopList(Listing::Dropped, b))
}

// A byte of a stop list.
pub(crate) fn list_step(m: &mut [u32; COUNT], k: Listing, before: u8, b: u8) -> Stepping
    ensures { (p : Printer) (v : Pending) → Current p v (Waiting.StopList k before) m.old
        → StepPromise p v b result.waiting (option_to_list result.wrote) m.new }
{
    match k {
        Listing::Sets(t) => set_step(m, t, before, b),
        Listing::Dropped => dropped_step(before, b),
    }
}
