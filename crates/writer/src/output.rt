// The bytes of a letter, from the beginning of an output on. Each function gives the count of bytes written.
ghost use Rattle.std.specs.Prelude.{◌≤◌, length};
ghost use Rattle.writer.specs.Card.{most_bytes, feed, feeds, move_bytes, place_bytes, letter_bytes};
ghost use Rattle.writer.specs.Laid.{Laid};

use crate::Letter;

pub(crate) fn put<const N: usize>(out: &mut [u8], bytes: [u8; N]) -> usize
    requires { N ≤ length out.old }
    ensures { Laid out.old bytes.entry result out.new }
{
    out[..N].copy_from_slice(&bytes);
    N
}

// ESC J n.
fn put_feed(out: &mut [u8], n: u8) -> usize
    requires { 3 ≤ length out.old }
    ensures { Laid out.old (feed n) result out.new }
{
    put(out, [0x1B, b'J', n])
}

// Down by so many steps of 20 units, at most 255 at a time.
fn put_feeds(out: &mut [u8], steps: u16) -> usize
    requires { (steps ≤ 1979) × (24 ≤ length out.old) }
    ensures { Laid out.old (feeds steps) result out.new }
{
    let mut at = 0;
    for _ in 0..steps / 255 {
        at += put_feed(&mut out[at..], 255);
    }
    let rest = steps % 255;
    if rest == 0 {
        return at;
    }
    at + put_feed(&mut out[at..], rest as u8)
}

// ESC $ or ESC \, with a number of two bytes, low byte first.
fn put_move(out: &mut [u8], code: u8, n: u16) -> usize
    requires { 4 ≤ length out.old }
    ensures { Laid out.old (move_bytes code n) result out.new }
{
    let [low, high] = n.to_le_bytes();
    put(out, [0x1B, code, low, high])
}

// ESC $ to 60ths of an inch, and ESC \ by what is left.
fn put_place(out: &mut [u8], across: u16) -> usize
    requires { 8 ≤ length out.old }
    ensures { Laid out.old (place_bytes across) result out.new }
{
    let set = put_move(out, b'$', across / 60);
    let left = across % 60 / 20;
    if left == 0 {
        return set;
    }
    set + put_move(&mut out[set..], b'\\', left)
}

// Down and across to the letter's place, and the letter.
pub(crate) fn put_letter(out: &mut [u8], before: u16, x: Letter) -> usize
    requires { (before ≤ x.down) × (x.down ≤ 39580) × (most_bytes ≤ length out.old) }
    ensures { Laid out.old (letter_bytes before x) result out.new }
{
    let fed = put_feeds(out, (x.down - before) / 20);
    let placed = fed + put_place(&mut out[fed..], x.across);
    placed + put(&mut out[placed..], [x.byte])
}
