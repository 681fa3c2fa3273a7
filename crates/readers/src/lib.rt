// Reading a recording: the next host packet from a place on, with its data bytes as a part of the recording itself, by a plain reader
// over the recording and a place, and by a small one that keeps the two together.
#![tactic(auto)]

ghost use Rattle.readers.specs.Handed.{PartOf, HandsBack, ReadsFrom};

use recordings::{Fault, find};

// A packet as it is handed back: the data bytes are a part of the recording.
#[derive(Clone, Copy)]
pub struct Handed<'a> {
    pub kind: u8,
    pub content: &'a [u8],
    pub next: usize,
}

// A recording and a place in it.
#[derive(Clone, Copy)]
pub struct Reader<'a> {
    pub recording: &'a [u8],
    pub place: usize,
}

// So many bytes from a place on, as a part of the recording itself, or as many of them as there are.
pub fn part<'a>(recording: &'a [u8], start: usize, length: usize) -> &'a [u8]
    ensures { PartOf recording.entry start length result }
{
    let from = start.min(recording.len());
    let n = length.min(recording.len() - from);
    &recording[from..from + n]
}

// The plain reader: the next host packet from a place on.
pub fn next<'a>(recording: &'a [u8], place: usize) -> Result<Option<Handed<'a>>, Fault>
    ensures { HandsBack recording.entry place result }
{
    let Some(f) = find(recording, place)? else {
        return Ok(None);
    };
    Ok(Some(Handed {
        kind: f.kind,
        content: part(recording, f.start, f.length),
        next: f.next,
    }))
}

// The small reader, at a place: 0, or behind a packet that it handed back that packet's `next`.
pub fn open<'a>(recording: &'a [u8], place: usize) -> Reader<'a>
    ensures { ReadsFrom recording.entry place result }
{
    Reader { recording, place }
}

// The next host packet from the reader's place on.
pub fn read<'a>(reader: Reader<'a>) -> Result<Option<Handed<'a>>, Fault>
    ensures { HandsBack reader.entry.recording reader.entry.place result }
{
    next(reader.recording, reader.place)
}
