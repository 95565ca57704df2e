// The bytes of records.
ghost use Rattle.std.specs.Prelude.{◌≡◌, ◌+◌, ◌*◌, [], ◌∷◌};
ghost use Rattle.printer.specs.Records.{mark_low, mark_high, low, high, encoded};
ghost use Rattle.measures.specs.Encoding.{with_look};

use printer::records::{Mark, Record};

// A two-byte field, low byte first.
fn split(n: u32) -> [u8; 2]
    ensures { result ≡ low n ∷ high n ∷ [] }
{
    ((n % 65536) as u16).to_le_bytes()
}

// The letters of a mark.
fn letters(mark: Mark) -> [u8; 2]
    ensures { result ≡ mark_low mark ∷ mark_high mark ∷ [] }
{
    match mark {
        Mark::Tx => *b"TX",
        Mark::Im => *b"IM",
        Mark::Ln => *b"LN",
        Mark::Cl => *b"CL",
        Mark::No => *b"NO",
    }
}

// Style and country as one number, which is stored at once.
fn look_of(r: Record) -> u32
    ensures { result ≡ r.style + 65536 * r.country }
{
    r.style as u32 + 65536 * r.country as u32
}

// A record's bytes, those of style and country from that number.
fn with_look(r: Record, look: u32) -> [u8; Record::SIZE]
    ensures { result ≡ with_look r look }
{
    let mark = letters(r.mark);
    let column = split(r.column.0);
    let row = split(r.row.0);
    let look = look.to_le_bytes();
    let advance = split(r.advance.0);
    let rest = r.rest.0.to_le_bytes();
    [
        mark[0], mark[1], column[0], column[1], row[0], row[1], r.byte, r.font, look[0], look[1],
        look[2], look[3], advance[0], advance[1], rest[0], rest[1],
    ]
}

// A record's bytes: two-byte fields low byte first.
pub fn encoded(r: Record) -> [u8; Record::SIZE]
    ensures { result ≡ encoded r }
{
    with_look(r, look_of(r))
}
