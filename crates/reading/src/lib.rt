// What a panel writes, read back into values: exactly one reply, error reply or report that a panel in its ranges can write, or
// nothing.
#![tactic(auto)]

ghost use Rattle.std.specs.Prelude.{◌≡◌, ◌≤◌, length, is_ok};
ghost use Rattle.packets.specs.Packet.{content_most};
ghost use Rattle.verdict.specs.Verdict.{verdict_of};
ghost use Rattle.reading.specs.Reading.{is_memory, is_poll, is_wired, is_pin, can_reply, key_pressed, key_reported, meaning_of, reading_with, reading_by, ReadsReply};

use packets::{CONTENT, Judgement};
use panel::FLASH_BYTES;

// How many rows command 10 replies behind the address, and how many bytes command 24.
const ROWS: usize = 8;

const POLL: usize = 3;

// What some bytes mean. A reply and an error reply carry the command; a report the key's number and whether it went down.
#[derive(Clone, Copy)]
pub enum Meaning {
    Reply(u8),
    ErrorReply(u8),
    Report { number: u8, down: bool },
}

// The values of a reply are its data bytes, zeros behind them; what is no reply has none.
// Kept: a count beside an array, since with a slice the promise and the theorems of exchange would speak of places, and not of values alone.
#[derive(Clone, Copy)]
pub struct Reading {
    pub meaning: Meaning,
    pub count: usize,
    pub values: [u8; CONTENT],
}

// Whether the panel allows a command with these data.
fn allowed(code: u8, content: &[u8]) -> bool
    ensures { result ≡ is_ok (verdict_of code content.now) }
{
    verdict::verdict_on(code, content).is_ok()
}

// Command 10's reply: an address and eight bytes.
#[tactic(auto, unfolding(crate::specs::Reading::is_memory))]
fn is_memory(d: &[u8]) -> bool
    ensures { result ≡ is_memory d.now }
{
    match d {
        [address, rows @ ..] if rows.len() == ROWS => {
            allowed(10, &d[..1]) && (128 <= *address || ranges::all_at_most(rows, 63))
        }
        _ => false,
    }
}

// Command 24's reply: three bytes of six bits.
#[tactic(auto, unfolding(crate::specs::Reading::is_poll))]
fn is_poll(d: &[u8]) -> bool
    ensures { result ≡ is_poll d.now }
{
    d.len() == POLL && ranges::all_at_most(d, 63)
}

// Edges and config of a pin.
#[tactic(auto, using(lists::proofs::Laws::when_true, lists::proofs::Laws::when_false), unfolding(crate::specs::Reading::is_wired))]
fn is_wired(pin: u8, edges: u8, config: u8) -> bool
    ensures { result ≡ is_wired pin edges config }
{
    if pin <= 4 {
        edges <= 7 && table::config_allowed(config)
    } else {
        edges == 0 && config == 0
    }
}

// Command 35's reply: pin, edges, level, config.
#[tactic(auto, unfolding(crate::specs::Reading::is_pin))]
fn is_pin(d: &[u8]) -> bool
    ensures { result ≡ is_pin d.now }
{
    match d {
        [pin, edges, level, config] => {
            allowed(35, &d[..1]) && *level <= 100 && is_wired(*pin, *edges, *config)
        }
        _ => false,
    }
}

// Whether a panel in its ranges can reply these data to a command.
// Kept: the codes are the paper's own numbers, of which `can_reply` speaks for each byte that may come.
#[tactic(auto, using(lists::proofs::Laws::when_true, lists::proofs::Laws::when_false), unfolding(crate::specs::Reading::can_reply))]
fn can_reply(code: u8, d: &[u8]) -> bool
    ensures { result ≡ can_reply code d.now }
{
    match code {
        0 => true,
        1 => d == b"CFA635:h1.1,s1.6".as_slice(),
        3 => d.len() == FLASH_BYTES,
        10 => is_memory(d),
        24 => is_poll(d),
        35 => is_pin(d),
        _ => table::look(code).is_some() && d.is_empty(),
    }
}

// The number of the key whose press has this code.
fn key_pressed(code: u8) -> u8
    requires { (1 ≤ code) × (code ≤ 6) }
    ensures { result ≡ key_pressed code }
{
    [0, 5, 3, 4, 1, 2][usize::from(code) - 1]
}

// Kept: the codes of the keys are the paper's numbers (`key_reported`).
#[tactic(auto, using(lists::proofs::Laws::when_true, lists::proofs::Laws::when_false), unfolding(crate::specs::Reading::key_reported))]
fn key_reported(code: u8) -> Option<Meaning>
    ensures { result ≡ key_reported code }
{
    match code {
        1..=6 => Some(Meaning::Report {
            number: key_pressed(code),
            down: true,
        }),
        7..=12 => Some(Meaning::Report {
            number: key_pressed(code - 6),
            down: false,
        }),
        _ => None,
    }
}

// What a packet of a type and data means.
// Kept: the types are the paper's numbers (`meaning_of`).
#[tactic(auto, using(lists::proofs::Laws::when_true, lists::proofs::Laws::when_false), unfolding(crate::specs::Reading::meaning_of))]
fn meaning_of(kind: u8, d: &[u8]) -> Option<Meaning>
    ensures { result ≡ meaning_of kind d.now }
{
    match kind {
        64..=127 if can_reply(kind - 64, d) => Some(Meaning::Reply(kind - 64)),
        128 => match d {
            [code] => key_reported(*code),
            _ => None,
        },
        193..=255 if d.is_empty() => Some(Meaning::ErrorReply(kind - 192)),
        _ => None,
    }
}

// Kept: no type of std's is a slice of at most 22 bytes, so that the two functions on one ask for it.
fn reading_with(meaning: Meaning, values: &[u8]) -> Reading
    requires { length values.now ≤ content_most }
    ensures { result ≡ reading_with meaning values.now }
{
    let mut bytes = [0u8; CONTENT];
    bytes[..values.len()].copy_from_slice(values);
    Reading {
        meaning,
        count: values.len(),
        values: bytes,
    }
}

// A packet's meaning, with its values.
fn reading_by(kind: u8, d: &[u8]) -> Option<Reading>
    requires { length d.now ≤ content_most }
    ensures { result ≡ reading_by kind d.now }
{
    let meaning = meaning_of(kind, d)?;
    let values = match meaning {
        Meaning::Reply(_) => d,
        _ => &[],
    };
    Some(reading_with(meaning, values))
}

// What the bytes mean, where they are exactly one reply, error reply or report that a panel can write.
pub fn read(bytes: &[u8]) -> Option<Reading>
    ensures { ReadsReply bytes.now result }
{
    match (packets::judge(bytes), bytes) {
        (Judgement::Packet, [kind, length, d @ .., _, _]) if d.len() == usize::from(*length) => {
            reading_by(*kind, d)
        }
        _ => None,
    }
}
