// Cases of the framing.
use crate::text::{hex, labelled, word};
use crate::words::Word;
use framing::Scanned;
use packets::Hold;
use std::io::Stdout;

// What calls come to, besides their packets.
#[derive(Clone, Copy)]
struct Sums {
    hold: Hold,
    dropped: usize,
    checked: usize,
}

// What no call has come to yet.
fn begun(hold: Hold) -> Sums {
    Sums {
        hold,
        dropped: 0,
        checked: 0,
    }
}

// What a call took, where `took` says so, and its packet.
fn shown(stdout: Stdout, r: Scanned, took: bool) {
    if took {
        labelled(stdout, b" took ", r.counts.taken);
    }
    if let Some(packet) = r.packet {
        word(stdout, b" [");
        hex(stdout, packet.kind);
        crate::text::bytes(stdout, &packet.content, 0, packet.length, hex);
        word(stdout, b"]");
    }
}

fn told(stdout: Stdout, s: Sums) {
    labelled(stdout, b"; dropped ", s.dropped);
    labelled(stdout, b" checked ", s.checked);
    labelled(stdout, b" held ", s.hold.count);
    crate::text::end(stdout);
}

// Calls until all is taken and the answer is waiting. A line of the script spells at most 256 bytes, so that by
// `four_bytes_a_packet`, with at most 25 bytes held before, there are no more calls than the loop allows; no call takes more
// than its piece.
fn calls(stdout: Stdout, before: Sums, bytes: &[u8], took: bool) -> Sums {
    let mut s = before;
    let mut rest = bytes;
    for _ in 0..80usize {
        let r = framing::scan(s.hold, rest);
        shown(stdout, r, took);
        s = Sums {
            hold: r.hold,
            dropped: s.dropped.saturating_add(r.counts.dropped),
            checked: s.checked.saturating_add(r.counts.checked),
        };
        rest = &rest[r.counts.taken.min(rest.len())..];
        if r.packet.is_none() {
            break;
        }
    }
    s
}

// What is held after calls on bytes.
fn scan(stdout: Stdout, held: Hold, bytes: &[u8]) -> Hold {
    let s = calls(stdout, begun(held), bytes, true);
    told(stdout, s);
    s.hold
}

// The bytes cut in two at each place, from nothing held.
// Kept: each turn is about a place to cut at, and not about a byte.
fn cuts(stdout: Stdout, bytes: &[u8]) {
    for at in 0..bytes.len() {
        labelled(stdout, b"cut at ", at);
        let s = calls(stdout, begun(packets::empty()), &bytes[..at], false);
        told(stdout, calls(stdout, s, &bytes[at..], false));
    }
}

fn compose(stdout: Stdout, bytes: &[u8]) {
    let mut out = [0u8; 26];
    if let [kind, content @ ..] = bytes {
        let n = packets::compose(&mut out, *kind, content);
        crate::text::bytes(stdout, &out, 0, n, hex);
    }
    crate::text::end(stdout);
}

// What is held after a line of the script that spells these bytes.
pub fn run(stdout: Stdout, name: Word, bytes: &[u8], held: Hold) -> Hold {
    match name {
        Word::Heading => return packets::empty(),
        Word::Scan => return scan(stdout, held, bytes),
        Word::Cuts => cuts(stdout, bytes),
        Word::Compose => compose(stdout, bytes),
        Word::Sum => crate::text::checksum(stdout, bytes),
        _ => {}
    }
    held
}
