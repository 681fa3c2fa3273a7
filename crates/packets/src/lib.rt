// Packets: the held bytes, the judgement at the oldest of them, and composing a packet. Nothing here knows of any command.
#![tactic(auto)]

ghost use Rattle.std.specs.Prelude.{◌≡◌, ◌+◌, ◌<◌, ◌≤◌, length};
ghost use Rattle.lists.specs.Runs.{pasted};
ghost use Rattle.packets.specs.Hold.{HoldsNothing};
ghost use Rattle.packets.specs.Judge.{length_byte, checksum_right, Judges};
ghost use Rattle.packets.specs.Packet.{content_most, Composes};

// The most bytes that can wait: one more is always judged away.
pub const HELD: usize = 25;

// Oldest first. The bytes behind the count are no part of what is held.
// Kept: there is no heap; the state's bytes have all 25 and the count, and a count above 25 is what `in_ranges` refuses.
#[derive(Clone, Copy)]
pub struct Hold {
    pub bytes: [u8; HELD],
    pub count: usize,
}

// Nothing held, as at power-on.
pub fn empty() -> Hold
    ensures { HoldsNothing result }
{
    Hold {
        bytes: [0u8; HELD],
        count: 0,
    }
}

// The most data bytes of a packet, and the size of a buffer that holds any packet.
pub const CONTENT: usize = 22;

pub const REPLY: usize = CONTENT + 4;

// What becomes of the oldest byte: more must come first, it goes because the length is above 22 or because the
// checksum is wrong, or a packet begins with it.
#[derive(Clone, Copy)]
pub enum Judgement {
    Wait,
    LongLength,
    WrongChecksum,
    Packet,
}

// Whether the checksum behind the n data bytes is right.
fn checksum_right(held: &[u8], n: usize) -> bool
    requires { (n ≡ length_byte held.now) × (n ≤ content_most) × (n + 4 ≤ length held.now) }
    ensures { result ≡ checksum_right held.now }
{
    fcs::checksum(&held[..n + 2]) == u16::from_le_bytes([held[n + 2], held[n + 3]])
}

#[tactic(auto, using(lists::proofs::Laws::when_true, lists::proofs::Laws::when_false), unfolding(crate::specs::Judge::judge))]
pub fn judge(held: &[u8]) -> Judgement
    ensures { Judges held.now result }
{
    if held.len() < 2 {
        return Judgement::Wait;
    }
    let n = lists::wide(held[1]);
    if CONTENT < n {
        return Judgement::LongLength;
    }
    if held.len() < n + 4 {
        return Judgement::Wait;
    }
    if checksum_right(held, n) {
        return Judgement::Packet;
    }
    Judgement::WrongChecksum
}

// Type, length and data; zeros behind the data.
// Kept: a packet is handed on by value, and there is no heap: it has room for the most data bytes, with how many there are.
#[derive(Clone, Copy)]
pub struct Packet {
    pub kind: u8,
    pub length: usize,
    pub content: [u8; CONTENT],
}

// Data bytes behind a packet's type and length.
// Kept: both runs may be the caller's, so that a copy of the whole would have the archive ask C for memmove.
fn lay_content(out: &mut [u8], content: &[u8])
    requires { length content.now + 2 ≤ length out.old }
    ensures { out.new ≡ pasted out.old 2 content.now }
{
    for (i, byte) in content.iter().enumerate() {
        out[2 + i] = *byte;
    }
}

// The packet of a type and data bytes at the front of a lent buffer of 26, and its length. A buffer of another size, or
// more than 22 data bytes: nothing is written, and the length is 0.
// Kept: a length of 0 says that nothing is written, as a call does that replies nothing: `Composes` says it, and the C calls pass it on.
pub fn compose(out: &mut [u8], kind: u8, content: &[u8]) -> usize
    ensures { Composes out.old kind content.now result out.new }
{
    let size = content.len();
    if out.len() != REPLY || CONTENT < size {
        return 0;
    }
    out[0] = kind;
    out[1] = size as u8;
    lay_content(out, content);
    let sum = fcs::checksum(&out[..size + 2]);
    lists::paste(out, size + 2, &sum.to_le_bytes());
    size + 4
}
