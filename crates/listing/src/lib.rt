// The lines that the program `recording` writes, each put together in a lent buffer.
#![tactic(auto)]

ghost use Rattle.std.specs.Prelude.{◌≡◌, [], ◌∷◌, ◌++◌, ◌+◌, ◌<◌, ◌≤◌, length, replicate};
ghost use Rattle.lists.specs.Runs.{front};
ghost use Rattle.packets.specs.Packet.{content_most};
ghost use Rattle.listing.specs.Listing.{hex_digit, hex_text, packet_marks, ListsPacket, ListsTotals, ListsRefusal};

use packets::CONTENT;
use wording::filled;

// How long the form of a packet's line is up to its data, and at most.
const MARKS: usize = 10;

const FORM: usize = MARKS + 2 * CONTENT + 1;

// Kept: the library's digit is an Option of a char, to be taken apart again.
#[tactic(auto, using(lists::proofs::Laws::when_true, lists::proofs::Laws::when_false))]
fn digit(d: u8) -> u8
    requires { d < 16 }
    ensures { result ≡ hex_digit d }
{
    if d < 10 { b'0' + d } else { b'a' - 10 + d }
}

// The marks, and the bytes behind them in hexadecimal.
// Kept: no type of std's is a slice of at most 22 bytes.
fn in_hex(content: &[u8]) -> [u8; FORM]
    requires { length content.now ≤ content_most }
    ensures { result ≡ front (packet_marks ++ hex_text content.now) (replicate 55 0) }
{
    let mut form = [0u8; FORM];
    lists::paste(&mut form, 0, b"% % % % % ");
    for (i, &b) in content.iter().enumerate() {
        let pair = [digit(b / 16), digit(b % 16)];
        lists::paste(&mut form, MARKS + 2 * i, &pair);
    }
    form
}

// The line of a packet: its number, its entry's, where it begins, its type, how many data bytes it has, and the data. Of more than 22
// bytes the first 22 are told.
// Kept: six parameters and a length, since `ListsPacket` and `packet_determined` speak of them.
pub fn packet(
    out: &mut [u8],
    packet: u64,
    entry: u64,
    offset: u64,
    kind: u8,
    content: &[u8],
) -> usize
    ensures told { ListsPacket out.old packet entry offset kind content.now result out.new }
    ensures inside { result ≤ length out.new }
{
    let numbers = [packet, entry, offset, kind as u64, content.len() as u64];
    let n = content.len().min(CONTENT);
    if n == 0 {
        return filled(out, b"% % % % % -\n", &numbers);
    }
    let mut form = in_hex(&content[..n]);
    let end = MARKS + 2 * n;
    form[end] = b'\n';
    filled(out, &form[..=end], &numbers)
}

// The last line: how many packets, entries and bytes there are.
pub fn totals(out: &mut [u8], packets: u64, entries: u64, bytes: u64) -> usize
    ensures told { ListsTotals out.old packets entries bytes result out.new }
    ensures inside { result ≤ length out.new }
{
    filled(
        out,
        b"end packets % entries % bytes %\n",
        &[packets, entries, bytes],
    )
}

// The only line of a recording that is refused.
pub fn refusal(out: &mut [u8], number: u8) -> usize
    ensures told { ListsRefusal out.old number result out.new }
    ensures inside { result ≤ length out.new }
{
    filled(out, b"refused %\n", &[u64::from(number)])
}
