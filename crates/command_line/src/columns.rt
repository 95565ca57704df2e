// The words of `under`, taken one by one: two columns, or --help. After --help, or a word that is neither, no other counts.
ghost use Rattle.std.specs.Prelude.{◌≡◌, Some};
ghost use Rattle.command_line.specs.Columns.{with_column, with_number, taken, after_word, columns_of};

use crate::{BadUsage, CommandLine, decimal};

// What the words so far ask for.
#[derive(Clone, Copy, Debug, PartialEq, Eq)]
pub enum Words {
    Nothing,
    From(u16),
    Between(u16, u16),
    Help,
}

// What all the words ask for.
#[derive(Clone, Copy, Debug, PartialEq, Eq)]
pub enum Columns {
    Between(u16, u16),
    Help,
}

fn with_column(words: Words, n: u16) -> Result<Words, BadUsage>
    ensures { result ≡ with_column words n }
{
    match words {
        Words::Nothing => Ok(Words::From(n)),
        Words::From(from) => Ok(Words::Between(from, n)),
        Words::Between(_, _) => Err(BadUsage),
        Words::Help => Ok(Words::Help),
    }
}

fn with_number(words: Words, n: u32) -> Result<Words, BadUsage>
    ensures { result ≡ with_number words (Some n) }
{
    with_column(words, u16::try_from(n).map_err(|_| BadUsage)?)
}

#[tactic(auto, unfolding(crate::specs::Columns::taken))]
fn taken(words: Words, word: &[u8]) -> Result<Words, BadUsage>
    ensures { result ≡ taken words word.now }
{
    if word == b"--help".as_slice() {
        return Ok(Words::Help);
    }
    with_number(words, decimal(word).ok_or(BadUsage)?)
}

impl CommandLine for Words {
    ghost use Rattle.command_line.specs.declared.columns.Words.{Words};

    type Choice = Columns;

    ghost no_words = { Words.Nothing };

    ghost after_word = { after_word };

    ghost choice_of = { columns_of };

    fn new() -> Words {
        Words::Nothing
    }

    fn word(self, word: &[u8]) -> Result<Words, BadUsage> {
        match self {
            Words::Help => Ok(Words::Help),
            _ => taken(self, word),
        }
    }

    fn choice(self) -> Result<Columns, BadUsage> {
        match self {
            Words::Nothing | Words::From(_) => Err(BadUsage),
            Words::Between(from, to) => Ok(Columns::Between(from, to)),
            Words::Help => Ok(Columns::Help),
        }
    }
}
