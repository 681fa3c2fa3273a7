// What a command replies.
#![tactic(auto)]

ghost use Rattle.std.specs.Prelude.{◌≡◌, ◌∷◌, ◌≤◌, length};
ghost use Rattle.packets.specs.Packet.{packet_of};
ghost use Rattle.replies.specs.Replies.{memory, edges, pin_reply, RepliesTo};

use packets::{CONTENT, Packet};
use panel::{Body, Pins, Shown};

// Kept: no type of std's is a slice of at most 22 bytes, and a public function would have to say what it makes of more.
fn packet_of(kind: u8, bytes: &[u8]) -> Packet
    requires { length bytes.now ≤ 22 }
    ensures { result ≡ packet_of kind bytes.now }
{
    let mut content = [0u8; CONTENT];
    lists::paste(&mut content, 0, bytes);
    Packet {
        kind,
        length: bytes.len(),
        content,
    }
}

#[tactic(auto, using(lists::proofs::Laws::when_true, lists::proofs::Laws::when_false), unfolding(crate::specs::Replies::memory))]
fn read_memory(s: Shown, address: u8) -> [u8; 8]
    ensures { result ≡ memory s address }
{
    let a = u16::from(address);
    if a < 128 {
        return glyphs::eight(&s.glyphs, a.saturating_sub(64));
    }
    let place = a - 128;
    glyphs::eight(&s.text, 20 * (place / 32) + place % 32)
}

// The address, and the eight bytes from it on.
fn memory_reply(s: Shown, address: u8) -> [u8; 9]
    ensures { result ≡ address ∷ memory s address }
{
    let mut reply = [address; 9];
    lists::paste(&mut reply, 1, &read_memory(s, address));
    reply
}

#[tactic(auto, unfolding(crate::specs::Replies::edges))]
fn edges_of(p: Pins, pin: u8) -> u8
    ensures { result ≡ edges p pin }
{
    u8::from(bits::is_on(p.last, pin))
        + 2 * u8::from(bits::is_on(p.fell, pin))
        + 4 * u8::from(bits::is_on(p.rose, pin))
}

fn pin_reply(b: Body, pin: u8) -> [u8; 4]
    ensures { result ≡ pin_reply b pin }
{
    let i = lists::wide(pin);
    [
        pin,
        edges_of(b.pins, pin),
        lists::at(&b.live.wires.levels, i),
        lists::at(&b.live.wires.configs, i),
    ]
}

// The reply of the command that the low six type bits name, from the body before it.
// Kept: the codes are the paper's own numbers, by which the definition `reply_data` says what each of the 64 replies.
#[tactic(auto, using(lists::proofs::Laws::when_true, lists::proofs::Laws::when_false), unfolding(crate::specs::Replies::reply_data))]
pub fn reply_to(b: Body, p: Packet) -> Packet
    ensures { RepliesTo b p result }
{
    let n = p.length.min(CONTENT);
    let content = &p.content[..n];
    let first = lists::at(content, 0);
    let code = p.kind % 64;
    let kind = 64 + code;
    match code {
        0 => packet_of(kind, content),
        1 => packet_of(kind, b"CFA635:h1.1,s1.6"),
        3 => packet_of(kind, &b.flash),
        10 => packet_of(kind, &memory_reply(b.live.shown, first)),
        24 => packet_of(kind, &[b.keys.down, b.keys.pressed, b.keys.released]),
        35 => packet_of(kind, &pin_reply(b, first)),
        _ => packet_of(kind, &[]),
    }
}
