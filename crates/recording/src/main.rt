// The recording program: a line recording on standard input, a line of text a host packet on standard output. The whole recording is
// checked first, and its entries are then walked once.
#![tactic(auto)]

ghost use Rattle.std.specs.Prelude.{◌≤◌, length};

use recordings::{AHEAD, EntryPlaces, Fault, Flaw, Found};
use std::io;
use wording::filled;

// Room for a line.
const LINE: usize = 200;

// Room for the longest recording and one byte more, which is one too many.
const ROOM: usize = 65536;

// What was listed so far.
#[derive(Clone, Copy, Default)]
struct Listed {
    packets: u64,
    entries: u64,
}

// A line of standard output.
fn write<R: Print + Eprint>(rt: &R, line: &[u8]) -> io::Result<()> {
    telling::write(rt, line, "recording: standard output cannot be written")
}

// The line of a packet that was found.
fn told<R: Print + Eprint>(rt: &R, recording: &[u8], f: Found, s: Listed) -> io::Result<Listed> {
    let packets = s.packets.saturating_add(1);
    let offset = f.start.saturating_sub(AHEAD) as u64;
    let content = readers::part(recording, f.start, f.length);
    let mut out = [0u8; LINE];
    let n = listing::packet(&mut out, packets, s.entries, offset, f.kind, content);
    write(rt, &out[..n])?;
    Ok(Listed { packets, ..s })
}

// The lines of the packets of the entry that stands at a place.
fn entry<R: Print + Eprint>(rt: &R, recording: &[u8], at: usize, s: Listed) -> io::Result<Listed> {
    let mut t = Listed {
        entries: s.entries.saturating_add(1),
        ..s
    };
    let mut place = at;
    // Kept: the next place comes from the packet that was found.
    while let Some(f) = recordings::in_entry(recording, at, place) {
        t = told(rt, recording, f, t)?;
        place = f.next;
    }
    Ok(t)
}

// The lines of all entries, each walked once.
fn entries<R: Print + Eprint>(rt: &R, recording: &[u8]) -> io::Result<Listed> {
    let mut s = Listed::default();
    for at in EntryPlaces::new(recording) {
        s = entry(rt, recording, at, s)?;
    }
    Ok(s)
}

// What a recording that is fine holds.
fn list<R: Print + Eprint>(rt: &R, recording: &[u8]) -> io::Result<()> {
    write(rt, b"packet entry offset type length data\n")?;
    let s = entries(rt, recording)?;
    let mut out = [0u8; LINE];
    let n = listing::totals(&mut out, s.packets, s.entries, recording.len() as u64);
    write(rt, &out[..n])
}

// What is wrong, in words, and at which byte.
fn words(out: &mut [u8], fault: Fault) -> usize
    ensures { result ≤ length out.new }
{
    let form: &[u8] = match fault.flaw {
        Flaw::TooLong => b"recording: too long at byte %\n",
        Flaw::Mark => b"recording: mark wrong or missing at byte %\n",
        Flaw::Version => b"recording: version unknown or missing at byte %\n",
        Flaw::Direction => b"recording: bad direction at byte %\n",
        Flaw::CutShort => b"recording: entry cut short at byte %\n",
    };
    filled(out, form, &[fault.place as u64])
}

// A recording that is refused has one line, and its words on standard error.
fn refuse<R: Print + Eprint, E: Print>(rt: &R, errors: &E, fault: Fault) {
    let mut out = [0u8; LINE];
    let n = listing::refusal(&mut out, u8::from(fault.flaw));
    if telling::is_unread(write(rt, &out[..n])) {
        return;
    }
    let k = words(&mut out, fault);
    let _ = errors.write_all(&out[..k]);
}

// The lines of a recording, or of its refusal.
fn tell<R: Print + Eprint, E: Print>(rt: &R, errors: &E, recording: &[u8]) {
    match recordings::check(recording) {
        Ok(()) => {
            let _ = list(rt, recording);
        }
        Err(fault) => refuse(rt, errors, fault),
    }
}

fn main(rt: HostRuntime) {
    let mut room = [0u8; ROOM];
    let (n, read) = telling::fill(&mut rt.stdin(), &mut room);
    if read.is_err() {
        telling::say(&rt, "recording: standard input cannot be read");
        return;
    }
    tell(&rt, &rt.stderr(), &room[..n]);
}
