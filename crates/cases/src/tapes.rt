// Cases of recordings. A case puts its recording together, and asks for its packets. The word that a line begins with stands already.
use crate::text::{bytes, decimal, end, hex, labelled, word};
use crate::words::Word;
use std::io::Stdout;

// Room for a recording, and for one byte more than the longest has.
const ROOM: usize = recordings::LONGEST + 1;

// A recording as far as it is put together.
// Kept: bytes and how many there are, since nothing here is allocated.
#[derive(Clone, Copy)]
pub struct Recording {
    bytes: [u8; ROOM],
    size: usize,
}

pub fn empty() -> Recording {
    Recording {
        bytes: [0; ROOM],
        size: 0,
    }
}

impl Recording {
    // Bytes behind those of the recording.
    fn add(&mut self, given: &[u8]) {
        let at = self.size.min(ROOM);
        lists::paste(&mut self.bytes, at, given);
        self.size = at + given.len().min(ROOM - at);
    }

    // One byte, so many times, behind those of the recording.
    fn fill(&mut self, n: usize, byte: u8) {
        let at = self.size.min(ROOM);
        let end = at + n.min(ROOM - at);
        self.bytes[at..end].fill(byte);
        self.size = end;
    }

    // What the call says from a place on: the number, type, start, length and place, and the data bytes.
    fn next(&self, stdout: Stdout, from: usize) {
        let recording = &self.bytes[..self.size.min(ROOM)];
        let mut place = from;
        let mut kind: u8 = 0;
        let mut start: usize = 0;
        let mut length: usize = 0;
        let number = hostrecordings::naupelys_recording_next(
            recording,
            &mut place,
            &mut kind,
            &mut start,
            &mut length,
        );
        labelled(stdout, b" ", usize::from(number));
        labelled(stdout, b" ", usize::from(kind));
        labelled(stdout, b" ", start);
        labelled(stdout, b" ", length);
        labelled(stdout, b" ", place);
        word(stdout, b":");
        let content = readers::part(recording, start, length);
        bytes(stdout, content, 0, content.len(), hex);
        end(stdout);
    }

    // A line of the script that spells these bytes.
    pub fn run(&mut self, stdout: Stdout, name: Word, line: &[u8], given: &[u8]) {
        match name {
            Word::Heading => self.size = 0,
            Word::Tape => self.add(given),
            Word::Fill => {
                let byte = given.last().copied().unwrap_or(0);
                self.fill(decimal(line, 0, ROOM), byte);
            }
            Word::Next => self.next(stdout, decimal(line, 0, usize::MAX)),
            _ => {}
        }
    }
}
