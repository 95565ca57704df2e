// The escapes that change settings: without an argument, and with one.
ghost use Rattle.std.specs.Prelude.{◌≡◌, ℕ, Bool, [], ◌∷◌, true, refl, option_to_list};
ghost use Rattle.printer.specs.Escapes.{switches, switched_on, mode_row, parameter_row, choice_row, look_settings};
ghost use Rattle.printer.specs.Codes.{shows};
ghost use Rattle.printer.specs.Performing.{done, perform, records_of};
ghost use Rattle.printer.specs.Deciding.{ranged};
ghost use Rattle.printer.specs.declared.commands.Command.{Command};
ghost use Rattle.printer.specs.declared.commands.Look.{Look};
ghost use Rattle.printer.specs.declared.settings.Settings.{Settings};
ghost use Rattle.printer.specs.declared.state.Printer.{Printer};
ghost use Rattle.interpreter.specs.Doing.{Leaves, Sets, Does};

use crate::master::master;
use crate::output::{Reason, passed_record};
use crate::settings::{double_width, script, show, show_width, store_width};
use framing::codes::{choice_code, parameter_code};
use measures::countries;
use printer::commands::{Choice, Mode, Parameter, Switch};
use printer::records::Record;
use registers::derived::{Shown, store_shown};
use registers::groups::{flag, pitch_number};
use registers::{COUNT, COUNTRY, DRAFT, FONT, LINE, PITCH, SKIP, SPACING, UPPER_PRINTS};

// The escapes without an argument.
pub(crate) fn mode(m: &mut [u32; COUNT], k: Mode)
    ensures { Sets m.old m.new (λ (s : Settings). (mode_row k).sets s 0) }
{
    match k {
        Mode::EighthInchLine => m[LINE] = 450,
        Mode::SixthInchLine => m[LINE] = 600,
        Mode::NoSkip => m[SKIP] = 0,
        Mode::Pitch(p) => store_width(m, PITCH, pitch_number(p)),
        Mode::UpperPrints(on) => m[UPPER_PRINTS] = flag(on),
    }
}

// Those that only show on a letter's record.
pub(crate) fn switch(m: &mut [u32; COUNT], w: Switch)
    ensures { Sets m.old m.new (λ (s : Settings). look_settings s (Look.Switch w)) }
{
    match w {
        Switch::Bold(on) => show(m, Shown::Bold, on),
        Switch::DoubleStrike(on) => show(m, Shown::DoubleStrike, on),
        Switch::Italic(on) => show(m, Shown::Italic, on),
        Switch::NoScript => script(m, false, false),
    }
}

// 0, 1, 30h, 31h.
fn switches(n: u8) -> bool
    ensures { result ≡ switches n }
{
    matches!(n, 0..=1 | 0x30..=0x31)
}

// Of these, 1 and 31h switch on.
fn switched_on(n: u8) -> bool
    ensures { result ≡ switched_on n }
{
    matches!(n, 1 | 0x31)
}

// The escapes with one argument that change a setting, and write nothing where they do.
pub(crate) trait Setting: Copy {
    ghost command: { Self → (argument : ℕ) → Command };

    ghost taken: { Self → (argument : ℕ) → Bool };

    fn takes(self, n: u8) -> bool
        ensures { result ≡ taken self n };

    fn set(self, m: &mut [u32; COUNT], n: u8)
        ensures { Leaves m.old m.new (λ (p : Printer). perform p (done (command self n) 0)) };

    // The byte that its NO bears.
    fn code(self) -> u8
        ensures { (n : ℕ) → result ≡ shows (command self n) };

    ghost silent: { (c : Self) (n : ℕ) (p : Printer) → records_of p (done (command c n) 0) ≡ [] };
}

impl Setting for Parameter {
    ghost command = { Command.Parameter };

    ghost taken = { λ c n. (parameter_row c).takes n };

    ghost silent = { λ c n p. refl };

    fn takes(self, n: u8) -> bool {
        match self {
            Parameter::Line60ths => n <= 85,
            Parameter::Proportional | Parameter::Quality | Parameter::DoubleWidth => switches(n),
            Parameter::Line180ths
            | Parameter::Line360ths
            | Parameter::Spacing
            | Parameter::Master => true,
        }
    }

    fn set(self, m: &mut [u32; COUNT], n: u8) {
        match self {
            Parameter::Line180ths => m[LINE] = 20 * n as u32,
            Parameter::Line60ths => m[LINE] = 60 * n as u32,
            Parameter::Line360ths => m[LINE] = 10 * n as u32,
            Parameter::Spacing => store_width(m, SPACING, (n % 128) as u32),
            Parameter::Proportional => show_width(m, Shown::Proportional, switched_on(n)),
            Parameter::Quality => m[DRAFT] = flag(!switched_on(n)),
            Parameter::DoubleWidth => double_width(m, switched_on(n)),
            Parameter::Master => master(m, n),
        }
    }

    fn code(self) -> u8 {
        parameter_code(self)
    }
}

// Those that only show on a letter's record.
impl Setting for Choice {
    ghost command = { λ c n. Command.Look (Look.Choice c n) };

    ghost taken = { λ c n. (choice_row c).takes n };

    ghost silent = { λ c n p. refl };

    fn takes(self, n: u8) -> bool {
        match self {
            Choice::Script | Choice::Underline | Choice::DoubleHeight | Choice::Download =>
                switches(n),
            Choice::Outline => n <= 3,
            Choice::CodeTable => n <= 1,
            Choice::Font => true,
            Choice::Country => countries::named(n),
        }
    }

    fn set(self, m: &mut [u32; COUNT], n: u8) {
        match self {
            Choice::Script => script(m, !switched_on(n), switched_on(n)),
            Choice::Underline => show(m, Shown::Underline, switched_on(n)),
            Choice::DoubleHeight => show(m, Shown::DoubleHeight, switched_on(n)),
            Choice::Outline => store_shown(m, Shown::Outline, n as u32),
            Choice::CodeTable => show(m, Shown::ItalicTable, n == 0),
            Choice::Font => m[FONT] = n as u32,
            Choice::Country => m[COUNTRY] = n as u32,
            Choice::Download => show(m, Shown::Download, switched_on(n)),
        }
    }

    fn code(self) -> u8 {
        choice_code(self)
    }
}

// Such an escape with its argument.
pub(crate) fn argument<S: Setting>(m: &mut [u32; COUNT], c: S, n: u8) -> Option<Record>
    ensures { Does (λ (p : Printer). ranged (S.taken c n) (S.command c n) (done (S.command c n) 0) ∷ []) m.old m.new (option_to_list result) }
{
    if c.takes(n) {
        c.set(m, n);
        return None;
    }
    Some(passed_record(c.code(), Reason::NotAllowed))
}
