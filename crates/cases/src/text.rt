// Words, numbers and bytes as text.
ghost use Rattle.std.specs.Prelude.{◌≤◌, length, IfSome};

use std::io::Stdout;

// The value of a hexadecimal digit.
fn digit(b: u8) -> Option<u8>
    ensures { IfSome result (λ d. d ≤ 15) }
{
    match b {
        b'0'..=b'9' => Some(b - b'0'),
        b'A'..=b'F' => Some(b - b'A' + 10),
        _ => None,
    }
}

// The byte that two hexadecimal digits spell.
fn spelt(high: u8, low: u8) -> Option<u8> {
    let high = digit(high)?;
    let low = digit(low)?;
    Some(high * 16 + low)
}

// The bytes that `s` spells in pairs of hexadecimal digits, as many as `out` has room for; whatever else stands in `s` is
// passed over. Their number.
pub fn bytes_of(s: &[u8], out: &mut [u8]) -> usize
    ensures { result ≤ length out.new }
{
    let mut n = 0;
    let mut rest = s;
    // Kept: a pair takes two bytes, and what is passed over one.
    while let [high, low, behind @ ..] = rest {
        match spelt(*high, *low) {
            Some(byte) => {
                if n < out.len() {
                    out[n] = byte;
                    n += 1;
                }
                rest = behind;
            }
            None => rest = &rest[1..],
        }
    }
    n
}

// The bytes as they are. Here and below a failed write is passed over.
pub fn word(stdout: Stdout, s: &[u8]) {
    let _ = stdout.write_all(s);
}

// The end of a line.
pub fn end(stdout: Stdout) {
    word(stdout, b"\n");
}

// A text, and a number in decimal behind it.
pub fn labelled(stdout: Stdout, text: &[u8], n: usize) {
    word(stdout, text);
    let _ = print!(stdout; "{n}");
}

// The text with the bytes of `s` in decimal in place of its % marks; 0 past their end.
pub fn filled(stdout: Stdout, text: &[u8], s: &[u8]) {
    let mut rest = s.iter();
    for (i, part) in text.split(|b| *b == b'%').enumerate() {
        if 0 < i {
            plain(stdout, rest.next().copied().unwrap_or(0));
        }
        word(stdout, part);
    }
}

// A byte in decimal.
pub fn plain(stdout: Stdout, b: u8) {
    let _ = print!(stdout; "{b}");
}

// A byte in hexadecimal.
pub fn hex(stdout: Stdout, b: u8) {
    let _ = print!(stdout; "{b:02x}");
}

// The bytes from one place up to another, each behind a blank and as `shown` prints it; 0 past their end.
pub fn bytes<F: Fn(Stdout, u8)>(stdout: Stdout, s: &[u8], from: usize, to: usize, shown: F)
    requires { F.IsAlwaysCallable shown }
{
    for i in from..to {
        word(stdout, b" ");
        shown(stdout, lists::at(s, i));
    }
}

// The checksum of bytes, to the line's end.
pub fn checksum(stdout: Stdout, s: &[u8]) {
    word(stdout, b" ");
    let sum = fcs::checksum(s);
    let _ = print!(stdout; "{sum:04x}");
    end(stdout);
}

// The decimal number of `s` that has `wanted` others before it, up to `most`; 0 if there is none. Exact up to ten digits, and
// no case has more.
pub fn decimal(s: &[u8], wanted: usize, most: usize) -> usize
    ensures { result ≤ most }
{
    let run = s
        .split(|b| !b.is_ascii_digit())
        .filter(|run| !run.is_empty())
        .nth(wanted)
        .unwrap_or(&[]);
    let mut value: usize = 0;
    for &b in run {
        value = value.min(1000000000) * 10 + usize::from(b.saturating_sub(b'0'));
    }
    value.min(most)
}
