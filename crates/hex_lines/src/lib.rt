// Records as text: for each a line of lower-case hex digits; and such a line read back.
#![tactic(auto)]

ghost use Rattle.std.specs.Prelude.{◌≡◌, ◌*◌, ◌<◌, length};
ghost use Rattle.printer.specs.Records.{record_size};
ghost use Rattle.hex_lines.specs.HexLines.{hex_digit, hex_line, line_size, count_of, text_of};
ghost use Rattle.hex_lines.specs.RecordLine.{digit_of, record_of};

use printer::records::Record;

// The digits of a record, two a byte.
pub const DIGITS: usize = 2 * Record::SIZE;

// The bytes of a line: the digits, and a newline.
pub const LINE: usize = DIGITS + 1;

fn digit(n: u8) -> u8
    requires { n < 16 }
    ensures { result ≡ hex_digit n }
{
    if n < 10 { b'0' + n } else { b'a' + (n - 10) }
}

// Writes a record's line.
fn put_line(bytes: &[u8], out: &mut [u8])
    requires bytes_len { length bytes.now ≡ record_size }
    requires out_len { length out.old ≡ line_size }
    ensures { out.new ≡ hex_line bytes.now }
{
    for (i, &b) in bytes.iter().enumerate() {
        out[2 * i] = digit(b / 16);
        out[2 * i + 1] = digit(b % 16);
    }
    out[LINE - 1] = b'\n';
}

// Writes a line for each record, as many as there are and fit, and returns the count of bytes written.
pub fn lines(records: &[u8], out: &mut [u8]) -> usize
    ensures value { result ≡ line_size * count_of records.now (length out.old) }
    ensures out_after { out.new ≡ text_of records.now out.old }
{
    let count = (records.len() / Record::SIZE).min(out.len() / LINE);
    for i in 0..count {
        let from = Record::SIZE * i;
        let at = LINE * i;
        put_line(&records[from..from + Record::SIZE], &mut out[at..at + LINE]);
    }
    LINE * count
}

// The value of a hex digit of either case.
fn value(b: u8) -> Option<u8>
    ensures { result ≡ digit_of b }
{
    Some(char::from(b).to_digit(16)? as u8)
}

// The record whose line this is, without the newline.
pub fn record_of(line: &[u8]) -> Option<[u8; Record::SIZE]>
    ensures { result ≡ record_of line.now }
{
    if line.len() != DIGITS {
        return None;
    }
    let mut bytes = [0u8; Record::SIZE];
    for (k, byte) in bytes.iter_mut().enumerate() {
        let high = value(line[2 * k])?;
        let low = value(line[2 * k + 1])?;
        *byte = 16 * high + low;
    }
    Some(bytes)
}
