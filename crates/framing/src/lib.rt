// A call's scan of a piece of the line: judge, on a wait take more bytes, end at the first packet or when the piece is used
// up. The judged bytes stand where they came, in the piece; those of earlier calls stand in a window with the piece's first.
// Nothing here knows of any command.
#![tactic(auto)]

ghost use Rattle.std.specs.Prelude.{◌≡◌, ◌+◌, ◌≤◌, length, take, drop};
ghost use Rattle.lists.specs.Tests.{when◌then◌else◌};
ghost use Rattle.packets.specs.Judge.{length_byte, judge};
ghost use Rattle.packets.specs.Packet.{content_most};
ghost use Rattle.packets.specs.Hold.{held_most, held, hold_of};
ghost use Rattle.framing.specs.Scan.{after, found, settle, scan, scanned_of, piece_most, Scans};
ghost use Rattle.framing.specs.Walk.{needed, from, Walks};

use packets::{CONTENT, HELD, Hold, Judgement, Packet};

// Of a longer piece a call sees so many bytes.
pub const LONGEST: usize = 65535;

// Room for the bytes of earlier calls, and behind them as many of the piece.
const WINDOW: usize = 2 * HELD;

// The bytes that a call took from the piece, dropped from the line and ran through the checksum.
#[derive(Clone, Copy)]
pub struct Counts {
    pub taken: usize,
    pub dropped: usize,
    pub checked: usize,
}

// What a call finds and reports.
#[derive(Clone, Copy)]
pub struct Scanned {
    pub hold: Hold,
    pub packet: Option<Packet>,
    pub counts: Counts,
}

// Where a walk over bytes ends: those from `start` up to `end` are held, a packet at their front or waiting for more.
// Kept: `found` has no value beside it that is there only when it is true; the places hold in both cases.
#[derive(Clone, Copy)]
struct Walked {
    found: bool,
    start: usize,
    end: usize,
    checked: usize,
}

// The held bytes, for the next call.
fn kept(window: &[u8]) -> Hold
    requires { length window.now ≤ held_most }
    ensures { result ≡ hold_of window.now }
{
    let mut bytes = [0u8; HELD];
    lists::paste(&mut bytes, 0, window);
    Hold {
        bytes,
        count: window.len(),
    }
}

// A call that ends with a packet at the front of the held bytes, which is removed from them.
// Kept: replies makes packets too; one function for both would be public, and have to say what it makes of more than 22 bytes.
fn with_packet(window: &[u8], counts: Counts) -> Scanned
    requires { (length_byte window.now ≤ content_most) × (length_byte window.now + 4 ≤ length window.now) × (length window.now ≤ held_most + 1) × (counts.checked ≤ 2000000) }
    ensures { result ≡ scanned_of (after counts.taken counts.dropped counts.checked (found window.now)) }
{
    let n = lists::wide(window[1]);
    let end = n + 2;
    let mut content = [0u8; CONTENT];
    lists::paste(&mut content, 0, &window[2..end]);
    let hold = kept(&window[n + 4..]);
    let packet = Packet {
        kind: window[0],
        length: n,
        content,
    };
    Scanned {
        hold,
        packet: Some(packet),
        counts: Counts {
            checked: counts.checked + end,
            ..counts
        },
    }
}

// A call that ends with these bytes held: with the packet at their front, or waiting.
fn ended(window: &[u8], found: bool, counts: Counts) -> Scanned
    requires { (judge window.now ≡ (when found then Judgement.Packet else Judgement.Wait)) × (length window.now ≤ held_most + 1) × (counts.checked ≤ 2000000) }
    ensures { result ≡ scanned_of (after counts.taken counts.dropped counts.checked (settle window.now)) }
{
    if found {
        return with_packet(window, counts);
    }
    let hold = kept(window);
    Scanned {
        hold,
        packet: None,
        counts,
    }
}

// As many bytes as must be held before the judgement can be other than a wait.
fn wanted(held: &[u8]) -> usize
    ensures { result ≡ needed held.now }
{
    if held.len() < 2 {
        return 2;
    }
    lists::wide(held[1]) + 4
}

// Judges the bytes from `first` up to `next`, which are held. A drop moves the front and a wait the end, so that nothing is
// copied. The walk ends at a packet, or at a wait where the bytes are used up.
// Kept: a judgement moves the front, the end or neither, so that no iterator goes over these bytes.
fn walk(bytes: &[u8], first: usize, next: usize) -> Walked
    requires { (first ≤ next) × (next ≤ first + (held_most + 1)) × (next ≤ length bytes.now) × (length bytes.now ≤ piece_most) }
    ensures { Walks bytes.now first next result }
{
    let mut start = first;
    let mut end = next;
    let mut checked = 0;
    loop {
        let j = packets::judge(&bytes[start..end]);
        match j {
            Judgement::Wait => {
                if end < bytes.len() {
                    end = lists::at_most(start + wanted(&bytes[start..end]), bytes.len());
                } else {
                    return Walked {
                        found: false,
                        start,
                        end,
                        checked,
                    };
                }
            }
            Judgement::LongLength => start += 1,
            Judgement::WrongChecksum => {
                let covered = lists::wide(bytes[start + 1]) + 2;
                checked += covered;
                start += 1;
            }
            Judgement::Packet => {
                return Walked {
                    found: true,
                    start,
                    end,
                    checked,
                };
            }
        }
    }
}

// The rest of a call that holds bytes of the piece alone, those from `first` up to `next`, with `dropped` dropped before them.
// Kept: no type of std's is a slice of at most 65,535 bytes, so that the four functions behind `scan` ask for it.
fn scan_rest(piece: &[u8], first: usize, next: usize, dropped: usize, checked: usize) -> Scanned
    requires { (first ≤ next) × (next ≤ first + (held_most + 1)) × (next ≤ length piece.now) × (length piece.now ≤ piece_most) × (dropped ≤ held_most) × (checked ≤ 2000) }
    ensures { result ≡ scanned_of (after next (dropped + first) checked (from first next piece.now)) }
{
    let w = walk(piece, first, next);
    let counts = Counts {
        taken: w.end,
        dropped: dropped + w.start,
        checked: checked + w.checked,
    };
    ended(&piece[w.start..w.end], w.found, counts)
}

// A call that holds the first `count` bytes of the window, which are of earlier calls; the piece's first 25 stand behind them
// in it. Of more than 25 bytes none waits, so a walk that goes on behind the window holds bytes of the piece alone.
fn scan_window(window: &[u8], count: usize, piece: &[u8]) -> Scanned
    requires { (drop count window.now ≡ take held_most piece.now) × (count ≤ length window.now) × (count ≤ held_most) × (length piece.now ≤ piece_most) }
    ensures { result ≡ scanned_of (scan (take count window.now) piece.now) }
{
    let w = walk(window, 0, count);
    let taken = w.end - count;
    if w.found || taken == piece.len() {
        let counts = Counts {
            taken,
            dropped: w.start,
            checked: w.checked,
        };
        return ended(&window[w.start..w.end], w.found, counts);
    }
    scan_rest(piece, w.start - count, taken, count, w.checked)
}

fn scan_part(hold: Hold, piece: &[u8]) -> Scanned
    requires { length piece.now ≤ piece_most }
    ensures { result ≡ scanned_of (scan (held hold) piece.now) }
{
    let bytes = hold.bytes;
    let count = lists::at_most(hold.count, HELD);
    if count == 0 {
        return scan_rest(piece, 0, 0, 0, 0);
    }
    let near = lists::at_most(piece.len(), HELD);
    let mut window = [0u8; WINDOW];
    lists::paste(&mut window, 0, &bytes);
    lists::paste(&mut window, count, &piece[..near]);
    scan_window(&window[..count + near], count, piece)
}

pub fn scan(hold: Hold, piece: &[u8]) -> Scanned
    ensures { Scans hold piece.now result }
{
    let n = lists::at_most(piece.len(), LONGEST);
    scan_part(hold, &piece[..n])
}
