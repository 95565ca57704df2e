// What stands under a slot now: of the letters that survive on the present page, the last whose column lies from one column to another.
#![tactic(auto)]

ghost use Rattle.std.specs.Prelude.{◌≡◌, ◌+◌, ◌*◌, ◌≤◌, ◌↔◌, IsOk, IfOk, IfErr, IfSome, length};
ghost use Rattle.printer.specs.Tools.{within};
ghost use Rattle.printer.specs.Records.{record_size};
ghost use Rattle.slot.specs.Slot.{seen_of, found, place_found, part_of, part_given, number_of, standing_in};

use printer::records::Record;

// The dot columns of a slot, from one to another, both included.
#[derive(Clone, Copy)]
pub struct SlotColumns {
    pub from: u16,
    pub to: u16,
}

impl SlotColumns {
    pub fn contains(self, column: u16) -> bool
        ensures { result ≡ within self.from self.to column }
    {
        self.from <= column && column <= self.to
    }
}

// The list is refused: its length is no multiple of a record's.
#[derive(Clone, Copy, Debug, PartialEq, Eq)]
pub struct LengthRefused;

impl LengthRefused {
    // The number that a caller in C is given.
    pub fn number(self) -> u8
        ensures { result ≡ number_of (Err self) }
    {
        5
    }
}

// Which part of the list.
#[derive(Clone, Copy)]
pub struct Part {
    pub start: usize,
    pub length: usize,
}

// What a record is to the question: a TX in one of the columns, an LN on the page, an LN to another page, a CL, or anything else.
#[derive(Clone, Copy)]
pub enum Seen {
    Letter,
    Line,
    Page,
    Clear,
    Other,
}

// A record, by its bytes.
#[tactic(auto, unfolding(crate::specs::Slot::seen_of, printer::specs::Decoding::decoded, printer::specs::Decoding::marks_of))]
fn seen_in(bytes: &[u8], columns: SlotColumns) -> Seen
    requires { length bytes.now ≡ record_size }
    ensures { result ≡ seen_of columns.from columns.to bytes.now }
{
    let (a, b) = (bytes[0], bytes[1]);
    if (a == b'T') & (b == b'X') {
        let column = u16::from_le_bytes([bytes[2], bytes[3]]);
        return if columns.contains(column) {
            Seen::Letter
        } else {
            Seen::Other
        };
    }
    if (a == b'L') & (b == b'N') {
        return if bytes[6] == 0 {
            Seen::Line
        } else {
            Seen::Page
        };
    }
    if (a == b'C') & (b == b'L') {
        return Seen::Clear;
    }
    Seen::Other
}

// The same of a record by itself.
pub fn seen_of(bytes: &[u8; Record::SIZE], columns: SlotColumns) -> Seen
    ensures { result ≡ seen_of columns.from columns.to bytes.now }
{
    seen_in(bytes, columns)
}

// The place of the record asked for: from the newest record back, until the answer is certain.
fn newest(records: &[u8], columns: SlotColumns) -> Option<usize>
    ensures found { result ≡ place_found (found columns.from columns.to records.now) }
    ensures within { IfSome result (λ k. record_size * k + record_size ≤ length records.now) }
{
    if columns.to < columns.from {
        return None;
    }
    // a CL has voided the letters up to the LN or CL before
    let mut void = false;
    for k in (0..records.len() / Record::SIZE).rev() {
        let at = Record::SIZE * k;
        match seen_in(&records[at..at + Record::SIZE], columns) {
            Seen::Letter if !void => return Some(k),
            Seen::Letter => {}
            Seen::Line => void = false,
            Seen::Page => return None,
            Seen::Clear => void = true,
            Seen::Other => {}
        }
    }
    None
}

// Which part of the list is the record that stands under the columns; an empty part at its beginning, where none does.
pub fn part_of(records: &[u8], columns: SlotColumns) -> Result<Part, LengthRefused>
    ensures part { result ≡ part_of columns.from columns.to records.now }
    ensures inside { IfOk result (λ p. p.start + p.length ≤ length records.now) }
{
    if records.len() % Record::SIZE != 0 {
        return Err(LengthRefused);
    }
    Ok(match newest(records, columns) {
        Some(place) => Part {
            start: Record::SIZE * place,
            length: Record::SIZE,
        },
        None => Part {
            start: 0,
            length: 0,
        },
    })
}

// What a list that is refused is answered with: why, and the empty part at its beginning.
#[derive(Clone, Copy, Debug, PartialEq, Eq)]
pub struct Refused<'a> {
    pub reason: LengthRefused,
    pub part: &'a [u8],
}

// That record itself, as a part of the list; an empty part where none stands there, or where the list is refused.
pub fn slot(records: &[u8], columns: SlotColumns) -> Result<&[u8], Refused<'_>>
    ensures answer { IsOk result ↔ IsOk (part_of columns.from columns.to records.now) }
    ensures result_value { IfOk result (λ r. r.now ≡ standing_in columns.from columns.to records.now) }
    ensures ref_ptr_value { IfOk result (λ r. (r.ref_ptr.0 ≡ records.entry.ref_ptr.0) × (r.ref_ptr.1 ≡ records.entry.ref_ptr.1 + (part_given (part_of columns.from columns.to records.now)).start)) }
    ensures refused_value { IfErr result (λ e. e.part.now ≡ standing_in columns.from columns.to records.now) }
    ensures refused_ref_ptr_value { IfErr result (λ e. (e.part.ref_ptr.0 ≡ records.entry.ref_ptr.0) × (e.part.ref_ptr.1 ≡ records.entry.ref_ptr.1 + (part_given (part_of columns.from columns.to records.now)).start)) }
{
    match part_of(records, columns) {
        Ok(part) => Ok(&records[part.start..part.start + part.length]),
        Err(reason) => Err(Refused {
            reason,
            part: &records[..0],
        }),
    }
}
