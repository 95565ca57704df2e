// Records as lines of hex, byte by byte: the line begun is gathered, and when it ends its record counts.

ghost use Rattle.std.specs.Prelude.{◌≡◌};
ghost use Rattle.standing.specs.Text.{first_line, line_ended, byte_read, after_byte, after_text, text_ended, lines_of, reading_of};

use crate::Standing;
use hex_lines::DIGITS;
use slot::SlotColumns;

// What has been read of a text: the number of the line begun, from 1, its first `count` bytes, and what stands after the lines before it. (No
// `ArrayVec`, which is not Copy.)
#[derive(Clone, Copy, Debug)]
pub struct Text {
    pub number: u64,
    pub line: [u8; DIGITS],
    pub count: usize,
    pub standing: Standing,
}

// The line begun is no record's: what had been read when it was found.
#[derive(Clone, Copy, Debug)]
pub struct BadLine {
    pub text: Text,
}

impl Text {
    // Before any byte.
    pub fn new() -> Text
        ensures { lines_of result ≡ first_line }
    {
        Text {
            number: 1,
            line: [0; DIGITS],
            count: 0,
            standing: Standing::new(),
        }
    }

    // The line begun ends.
    #[tactic(auto, unfolding(crate::specs::Text::line_ended))]
    fn line_ended(self, columns: SlotColumns) -> Result<Text, BadLine>
        ensures { reading_of result ≡ line_ended columns.from columns.to (lines_of self) }
    {
        match hex_lines::record_of(&self.line[..self.count.min(DIGITS)]) {
            Some(bytes) => Ok(Text {
                number: self.number.wrapping_add(1),
                count: 0,
                standing: self.standing.after(bytes, columns),
                ..self
            }),
            None => Err(BadLine { text: self }),
        }
    }

    // One byte more of the line begun.
    #[tactic(auto, unfolding(crate::specs::Text::byte_read))]
    fn byte_read(mut self, b: u8) -> Result<Text, BadLine>
        ensures { reading_of result ≡ byte_read (lines_of self) b }
    {
        if DIGITS <= self.count {
            return Err(BadLine { text: self });
        }
        self.line[self.count] = b;
        self.count += 1;
        Ok(self)
    }

    #[tactic(auto, unfolding(crate::specs::Text::after_byte))]
    fn byte(self, b: u8, columns: SlotColumns) -> Result<Text, BadLine>
        ensures { reading_of result ≡ after_byte columns.from columns.to (Ok (lines_of self)) b }
    {
        if b == b'\n' {
            self.line_ended(columns)
        } else {
            self.byte_read(b)
        }
    }

    // After a piece of the text.
    #[tactic(auto, using(crate::proofs::Lines::byte_on, crate::proofs::Lines::refused_stays, crate::proofs::Lines::all_read))]
    pub fn piece(self, piece: &[u8], columns: SlotColumns) -> Result<Text, BadLine>
        ensures { reading_of result ≡ after_text columns.from columns.to (Ok (lines_of self)) piece.now }
    {
        let mut text = self;
        for &b in piece {
            text = text.byte(b, columns)?;
        }
        Ok(text)
    }

    // At the end of the text.
    #[tactic(auto, unfolding(crate::specs::Text::text_ended))]
    pub fn end(self, columns: SlotColumns) -> Result<Text, BadLine>
        ensures { reading_of result ≡ text_ended columns.from columns.to (Ok (lines_of self)) }
    {
        if self.count == 0 {
            return Ok(self);
        }
        self.line_ended(columns)
    }
}
