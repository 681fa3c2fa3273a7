// Line recordings: the check of a whole recording, and its host packets from a place on, as places in it. Nothing here knows of any
// command.
#![tactic(auto)]

ghost use Rattle.std.specs.Prelude.{◌≡◌, ◌+◌, ◌*◌, ◌<◌, ◌≤◌, min, length, get_or, MatchOption};
ghost use Rattle.std.specs.Iterator.{YieldsFirst, item_count};
ghost use Rattle.recordings.specs.Recording.{entries_start, entry_size, marked, versioned, entries_of, entry_fault, fault_of, entries_checked, entries_left, NumbersFlaw, ChecksRecording, Passes, WalksEntries};
ghost use Rattle.recordings.specs.Next.{before, packet_from, first_packet, FindsIn, Finds};

use packets::Judgement;

// The longest recording, where its entries begin, and the size of an entry's header: its direction byte and its length.
pub const LONGEST: usize = 65535;

pub const ENTRIES: usize = 5;

pub const HEADER: usize = 3;

// A packet's type and length stand before its data bytes, and its checksum behind them.
pub const AHEAD: usize = 2;

const CHECKSUM: usize = 2;

// Where the version stands, behind the mark.
const VERSION: usize = 3;

// The direction of an entry with what the host sent, and of one with what the panel sent.
// Kept: numbers, since any byte may stand where an entry has its direction.
pub const HOST: u8 = 0;

pub const PANEL: u8 = 1;

// What is wrong with a recording: it is too long, its mark or its version is wrong or missing, or an entry has a bad direction or is
// cut short.
#[derive(Clone, Copy, PartialEq, Eq)]
pub enum Flaw {
    TooLong = 22,
    Mark = 23,
    Version = 24,
    Direction = 25,
    CutShort = 26,
}

impl From<Flaw> for u8 {
    ghost from_gives = { NumbersFlaw };

    fn from(flaw: Flaw) -> u8 {
        flaw as u8
    }
}

// What is wrong, and the byte that it is about.
#[derive(Clone, Copy, PartialEq, Eq)]
pub struct Fault {
    pub flaw: Flaw,
    pub place: usize,
}

// A packet that was found, as places: where the data bytes start and how many there are, and the place to ask from for the packet
// behind.
#[derive(Clone, Copy, PartialEq, Eq)]
pub struct Found {
    pub kind: u8,
    pub start: usize,
    pub length: usize,
    pub next: usize,
}

// The places of a recording's entries, from one on.
#[derive(Clone, Copy)]
pub struct EntryPlaces<'a> {
    recording: &'a [u8],
    at: usize,
}

impl<'a> Iterator for EntryPlaces<'a> {
    type Item = usize;

    ghost next_gives = { YieldsFirst entries_left };

    ghost remaining = { item_count entries_left };

    fn next(&mut self) -> Option<usize> {
        let at = self.at;
        if self.recording.len() <= at {
            return None;
        }
        self.at = behind(self.recording, at);
        Some(at)
    }
}

impl<'a> EntryPlaces<'a> {
    // All entries of a recording.
    pub fn new(recording: &'a [u8]) -> EntryPlaces<'a>
        ensures { WalksEntries recording.entry result }
    {
        EntryPlaces {
            recording,
            at: ENTRIES,
        }
    }
}

#[tactic(auto, unfolding(crate::specs::Recording::marked))]
fn is_marked(recording: &[u8]) -> bool
    ensures { result ≡ marked recording.now }
{
    recording.starts_with(b"PLR")
}

// 16 bits, low byte first; a byte past the end counts as 0.
fn low16(bytes: &[u8]) -> usize
    ensures { (result ≡ get_or bytes.now 0 0 + 256 * get_or bytes.now 1 0) × (result < 65536) }
{
    match bytes {
        [low, high, ..] => usize::from(u16::from_le_bytes([*low, *high])),
        [low] => usize::from(*low),
        [] => 0,
    }
}

#[tactic(auto, unfolding(crate::specs::Recording::versioned))]
fn has_version(recording: &[u8]) -> bool
    ensures { result ≡ versioned recording.now }
{
    ENTRIES <= recording.len() && low16(&recording[VERSION..]) == 1
}

// How many bytes an entry says that it has, its header among them.
fn size_at(recording: &[u8], at: usize) -> usize
    requires { at < length recording.now }
    ensures { (result ≡ entry_size recording.now at) × (result ≤ 65538) }
{
    HEADER + low16(&recording[at + 1..])
}

// The place behind the entry that stands at a place; where that is behind the recording, the recording's end.
#[tactic(auto, unfolding(crate::specs::Recording::entry_end))]
pub fn behind(recording: &[u8], at: usize) -> usize
    ensures { Passes recording.now at result }
{
    if recording.len() <= at {
        return recording.len();
    }
    at.saturating_add(size_at(recording, at))
        .min(recording.len())
}

// What is wrong with the entry that stands at a place.
#[tactic(auto, using(lists::proofs::Laws::when_true, lists::proofs::Laws::when_false), unfolding(crate::specs::Recording::entry_end, crate::specs::Recording::entry_fault, crate::specs::Recording::fault_of))]
fn fault_at(recording: &[u8], at: usize) -> Result<(), Fault>
    requires { at < length recording.now }
    ensures { result ≡ fault_of (entry_fault recording.now at) at }
{
    if PANEL < recording[at] {
        return Err(Fault {
            flaw: Flaw::Direction,
            place: at,
        });
    }
    if recording.len() - at < size_at(recording, at) {
        return Err(Fault {
            flaw: Flaw::CutShort,
            place: at,
        });
    }
    Ok(())
}

// What is wrong with the first faulty entry.
fn check_entries(recording: &[u8]) -> Result<(), Fault>
    ensures { result ≡ entries_checked recording.now (entries_of recording.now entries_start) }
{
    for at in EntryPlaces::new(recording) {
        fault_at(recording, at)?;
    }
    Ok(())
}

// What is wrong with a recording, and at which byte: the first byte too many, the mark, the version, or the first faulty entry.
pub fn check(recording: &[u8]) -> Result<(), Fault>
    ensures { ChecksRecording recording.now result }
{
    if LONGEST < recording.len() {
        return Err(Fault {
            flaw: Flaw::TooLong,
            place: LONGEST,
        });
    }
    if !is_marked(recording) {
        return Err(Fault {
            flaw: Flaw::Mark,
            place: 0,
        });
    }
    if !has_version(recording) {
        return Err(Fault {
            flaw: Flaw::Version,
            place: VERSION,
        });
    }
    check_entries(recording)
}

// Where the first packet stands. A wait ends the look: nothing more comes.
// Kept: each turn is about all bytes from a place on, and not about a byte.
fn before_packet(bytes: &[u8]) -> Option<usize>
    ensures { MatchOption result (before bytes.now ≡ length bytes.now) (λ i. (before bytes.now ≡ i) × (i < length bytes.now)) }
{
    for i in 0..bytes.len() {
        match packets::judge(&bytes[i..]) {
            Judgement::Packet => return Some(i),
            Judgement::Wait => return None,
            Judgement::LongLength | Judgement::WrongChecksum => {}
        }
    }
    None
}

// The packet whose type stands at a place.
fn packet_from(recording: &[u8], at: usize) -> Found
    requires { at + (get_or recording.now (at + 1) 0 + 4) ≤ length recording.now }
    ensures { result ≡ packet_from recording.now at }
{
    let n = usize::from(recording[at + 1]);
    Found {
        kind: recording[at],
        start: at + AHEAD,
        length: n,
        next: at + AHEAD + n + CHECKSUM,
    }
}

// The first packet from a place on of the entry that stands at a place, if it is of the host.
pub fn in_entry(recording: &[u8], at: usize, place: usize) -> Option<Found>
    ensures { FindsIn recording.now at place result }
{
    let direction = recording.get(at)?;
    if *direction != HOST {
        return None;
    }
    let end = behind(recording, at);
    let start = place.max(at.saturating_add(HEADER)).min(end);
    let i = before_packet(&recording[start..end])?;
    Some(packet_from(recording, start + i))
}

// The first packet from a place on, entry by entry.
// Kept: with `find_map` the proof does not close: only of a run does it say that the item at which it stops gave Some, and std has no
// lemma that reads the run of an iterator of our own as a list.
fn seek(recording: &[u8], place: usize) -> Option<Found>
    ensures { result ≡ first_packet recording.now place (entries_of recording.now entries_start) }
{
    for at in EntryPlaces::new(recording) {
        if let Some(found) = in_entry(recording, at, place) {
            return Some(found);
        }
    }
    None
}

// The next host packet from a place on, as places: from 0 on the first, from a packet's `next` on the one behind it. The whole
// recording is checked first, each time.
pub fn find(recording: &[u8], place: usize) -> Result<Option<Found>, Fault>
    ensures { Finds recording.now place result }
{
    check(recording)?;
    Ok(seek(recording, place))
}
