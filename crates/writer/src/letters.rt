// The letters of a list, and what is wrong with them.
ghost use Rattle.std.specs.Prelude.{◌≡◌, ◌+◌, ◌*◌, ◌≤◌, length};
ghost use Rattle.printer.specs.Tools.{holds};
ghost use Rattle.writer.specs.Card.{letter_size, letter_at, count_of, byte_needs, place_needs, fault_of, fault_in};

use crate::{Letter, Refusal};

// A letter, from its bytes in the list.
pub(crate) fn letter_from(bytes: &[u8]) -> Letter
    requires { length bytes.now ≡ letter_size }
    ensures { result ≡ letter_at bytes.now 0 }
{
    Letter {
        byte: bytes[0],
        across: u16::from_le_bytes([bytes[1], bytes[2]]),
        down: u16::from_le_bytes([bytes[3], bytes[4]]),
    }
}

fn printable(b: u8) -> bool
    ensures { result ≡ holds (byte_needs b) }
{
    (0x20 <= b) & (b <= 0x7E)
}

// Places are multiples of 20 on the page, and none is above the one before.
fn placeable(before: u16, x: Letter) -> bool
    ensures { result ≡ holds (place_needs before x) }
{
    let across = x.across;
    let down = x.down;
    (across % 20 == 0)
        & ((across as u32 + 360 <= 28800)
            & ((down % 20 == 0) & ((down <= 39580) & (before <= down))))
}

// The byte is looked at before the place.
fn check_letter(before: u16, x: Letter) -> Result<(), Refusal>
    ensures { result ≡ fault_of before x }
{
    if !printable(x.byte) {
        return Err(Refusal::Byte);
    }
    if !placeable(before, x) {
        return Err(Refusal::Place);
    }
    Ok(())
}

// The first bad letter decides.
pub(crate) fn check_letters(letters: &[u8]) -> Result<(), Refusal>
    ensures { result ≡ fault_in letters.now (count_of letters.now) }
{
    let mut before = 0;
    for bytes in letters.chunks_exact(Letter::SIZE) {
        let x = letter_from(bytes);
        check_letter(before, x)?;
        before = x.down;
    }
    Ok(())
}
