//! The text of a number.
ghost use Rattle.std.specs.Prelude.{◌≡◌, ◌++◌, ◌+◌, ◌-◌, ◌/◌, ◌^◌, ◌<◌, ◌≤◌, OnErr, OnOk, drop, length};
ghost use Rattle.std.specs.Fmt.{decimal};
ghost use Rattle.xp_numeric.specs.Texts.{last_digits, text};

use xp_base::{Byts, Dec, Memory};

/// The most bytes of a text: a sign, 38 digits, a zero before them and a point.
const MOST: usize = 41;

/// Puts the last digits of the size at the end, and gives what is before them.
fn put_decimals(buffer: &mut [u8; 41], size: u128, count: usize) -> u128
    requires { count ≤ 38 }
    ensures value { result ≡ size / 10 ^ count }
    ensures written { drop (41 - count) buffer.new ≡ last_digits count size }
{
    let mut rest = size;
    for i in 0..count {
        buffer[MOST - 1 - i] = b'0' + (rest % 10) as u8;
        rest /= 10;
    }
    rest
}

/// Puts the digits of the size before the end, and gives the place of the first.
fn put_whole(buffer: &mut [u8; 41], end: usize, size: u128) -> usize
    requires low { 1 < end }
    requires high { end ≤ 41 }
    requires size { size < 10 ^ (end - 1) }
    requires few { size < 10 ^ 38 }
    ensures written { drop result buffer.new ≡ decimal size ++ drop end buffer.old }
    ensures low { 0 < result }
    ensures high { result ≤ end }
{
    let mut start = end;
    let mut rest = size;
    loop {
        start -= 1;
        buffer[start] = b'0' + (rest % 10) as u8;
        rest /= 10;
        if rest == 0 {
            return start;
        }
    }
}

/// Puts the text at the end, and gives the place of its first byte.
fn put_text(buffer: &mut [u8; 41], x: Dec) -> usize
    ensures written { drop result buffer.new ≡ text x }
    ensures within { result ≤ 41 }
{
    let count = x.scale as usize;
    let whole = put_decimals(buffer, x.coef, count);
    let mut end = MOST - count;
    if count > 0 {
        end -= 1;
        buffer[end] = b'.';
    }
    let start = put_whole(buffer, end, whole);
    if !x.neg {
        return start;
    }
    buffer[start - 1] = b'-';
    start - 1
}

/// Adds the text of the number, with as many decimals as its scale says.
pub fn write_numeric(x: Dec, out: &mut Byts) -> Result<(), Memory>
    ensures ok { OnOk result (out.new ≡ out.old ++ text x) }
    ensures err { OnErr result (out.new ≡ out.old) }
{
    let mut buffer = [0; MOST];
    let start = put_text(&mut buffer, x);
    out.append(&buffer[start..])
}
