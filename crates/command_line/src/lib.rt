// The words of the command line, taken one by one: --dots N, --width N, --auto-feed, --help. Of two --dots or two --width the last holds;
// after --help, or a word that is none of these, no other counts. The module `columns` has the words of `under`.
#![tactic(auto)]

pub mod columns;

ghost use Rattle.std.specs.Prelude.{◌≡◌, List, ℕ, Result};
ghost use Rattle.command_line.specs.declared.BadUsage.{BadUsage};
ghost use Rattle.command_line.specs.CommandLine.{asked_by, decimal_of, no_words, after_option, after_dots, after_width, after_word, choice_of};

use printer::settings::StartSettings;
use printer::starting::plain_start;
use std::env::{Env, FillError};

// Words that the program does not take, or too few of them.
#[derive(Clone, Copy, Debug, PartialEq, Eq)]
pub struct BadUsage;

// The words of a command line, taken one by one: what those so far ask for.
pub trait CommandLine: Drop + Sized {
    // What all the words ask for.
    type Choice: Drop;

    ghost no_words: { Self };

    ghost after_word: { Self → List ℕ → Result Self BadUsage };

    ghost choice_of: { Self → Result Self.Choice BadUsage };

    // Before any word.
    fn new() -> Self
        ensures { result ≡ no_words };

    // After one more word.
    fn word(self, word: &[u8]) -> Result<Self, BadUsage>
        ensures { result ≡ after_word self word.now };

    // After the last word.
    fn choice(self) -> Result<Self::Choice, BadUsage>
        ensures { result ≡ choice_of self };
}

// The most bytes of a word: a longer one is none that is known.
const WORD: usize = 4096;

// What the words of the command line ask for. That they are those of the command line is left to these lines, as no contract of std says
// which it has.
pub fn asked<T: CommandLine>(rt: &HostRuntime) -> Result<T::Choice, BadUsage>
    ensures { (words : List (List ℕ)) × (result ≡ asked_by T.after_word T.choice_of T.no_words words) }
{
    let mut asked = T::new();
    let mut word = [0u8; WORD];
    for i in 1..usize::MAX {
        let n = match rt.arg(i, &mut word) {
            Ok(n) => n,
            // as an empty word, which is none that is known
            Err(FillError::TooLong) => 0,
            Err(FillError::NotPresent) => break,
        };
        asked = asked.word(&word[..n])?;
    }
    asked.choice()
}

// What the words so far ask for.
#[derive(Clone, Copy)]
pub enum Options {
    Run(StartSettings),
    // The number after --dots is the next word.
    WantsDots(StartSettings),
    // The number after --width is the next word.
    WantsWidth(StartSettings),
    Help,
}

// What all the words ask for.
#[derive(Clone, Copy)]
pub enum Choice {
    Run(StartSettings),
    Help,
}

// The most digits of a number: any such fits 32 bits.
const MOST_DIGITS: usize = 9;

fn decimal(word: &[u8]) -> Option<u32>
    ensures { result ≡ decimal_of word.now }
{
    if word.is_empty() || word.len() > MOST_DIGITS {
        return None;
    }
    let mut value = 0;
    for &digit in word {
        if !digit.is_ascii_digit() {
            return None;
        }
        value = 10 * value + u32::from(digit - b'0');
    }
    Some(value)
}

#[tactic(auto, unfolding(crate::specs::CommandLine::after_option))]
fn after_option(s: StartSettings, word: &[u8]) -> Result<Options, BadUsage>
    ensures { result ≡ after_option s word.now }
{
    if word == b"--dots".as_slice() {
        return Ok(Options::WantsDots(s));
    }
    if word == b"--width".as_slice() {
        return Ok(Options::WantsWidth(s));
    }
    if word == b"--auto-feed".as_slice() {
        return Ok(Options::Run(StartSettings {
            autofeed: true,
            ..s
        }));
    }
    if word == b"--help".as_slice() {
        return Ok(Options::Help);
    }
    Err(BadUsage)
}

fn after_dots(s: StartSettings, word: &[u8]) -> Result<Options, BadUsage>
    ensures { result ≡ after_dots s (decimal_of word.now) }
{
    let resolution = decimal(word).ok_or(BadUsage)?;
    Ok(Options::Run(StartSettings { resolution, ..s }))
}

fn after_width(s: StartSettings, word: &[u8]) -> Result<Options, BadUsage>
    ensures { result ≡ after_width s (decimal_of word.now) }
{
    let width = decimal(word).ok_or(BadUsage)?;
    Ok(Options::Run(StartSettings { width, ..s }))
}

impl CommandLine for Options {
    type Choice = Choice;

    ghost no_words = { no_words };

    ghost after_word = { after_word };

    ghost choice_of = { choice_of };

    // 300 dots, automatic line feed off, the widest paper.
    fn new() -> Options {
        Options::Run(plain_start())
    }

    fn word(self, word: &[u8]) -> Result<Options, BadUsage> {
        match self {
            Options::Run(s) => after_option(s, word),
            Options::WantsDots(s) => after_dots(s, word),
            Options::WantsWidth(s) => after_width(s, word),
            Options::Help => Ok(Options::Help),
        }
    }

    fn choice(self) -> Result<Choice, BadUsage> {
        match self {
            Options::Run(s) => Ok(Choice::Run(s)),
            Options::WantsDots(_) | Options::WantsWidth(_) => Err(BadUsage),
            Options::Help => Ok(Choice::Help),
        }
    }
}
