// What the calls answer, by the answers' numbers.
ghost use Rattle.std.specs.Prelude.{◌≡◌};
ghost use Rattle.printer.specs.Calls.{number_of};

use crate::state::Printer;

#[derive(Clone, Copy)]
pub enum Answer {
    InputUsed = 0,
    AllowanceUsed = 1,
    OutputFull = 2,
    SettingsRefused = 3,
    StateRefused = 4,
}

impl Answer {
    // The answer's number.
    pub fn number(self) -> u8
        ensures { result ≡ number_of self }
    {
        self as u8
    }
}

// What a start gives back.
#[derive(Clone, Copy)]
pub struct Started {
    pub answer: Answer,
    pub printer: Printer,
}

// What a reading call reports: its answer, and how many bytes it read and wrote.
#[derive(Clone, Copy)]
pub struct Report {
    pub answer: Answer,
    pub read: usize,
    pub written: usize,
}

// What the reading call by value gives back.
#[derive(Clone, Copy)]
pub struct Reading {
    pub report: Report,
    pub printer: Printer,
}
