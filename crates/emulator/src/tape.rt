// The recording that `record FILE` asks for, written as the line goes. What the host sent since nothing was held last is an entry, and
// the replies to it are the next: so no packet is cut over two entries.
use crate::faults::fail;
use kept::Session;
use recorder::room;
use recordings::{ENTRIES, HEADER, HOST, LONGEST, PANEL};
use session::Desk;
use session::sizes::PIECE;
use std::fs::File;
use std::io;
use std::io::Write;
use std::rt::Files;
use telling::say;

// Why a recording ends before the line does: an entry would not fit, or the file cannot be written.
#[derive(Clone, Copy)]
pub enum Ended {
    Full,
    Unwritten(io::Error),
}

impl From<io::Error> for Ended {
    fn from(why: io::Error) -> Ended {
        Ended::Unwritten(why)
    }
}

// How many bytes of one side wait to be an entry, behind the room of its header.
// Kept: a buffer and a count, since nothing here is allocated.
#[derive(Clone, Copy)]
struct Waiting {
    direction: u8,
    entry: [u8; LONGEST],
    count: usize,
}

// What waits of the host and of the panel. It stands beside the recording, and is lent to it, since it is too large to be handed on.
#[derive(Clone, Copy)]
pub struct BothWaiting {
    host: Waiting,
    panel: Waiting,
}

// The recording: its file, and how many bytes that has.
#[derive(Clone, Copy, Drop)]
pub struct Tape<W> {
    file: W,
    size: usize,
}

impl BothWaiting {
    // Nothing waits.
    pub fn none() -> BothWaiting {
        BothWaiting {
            host: Waiting {
                direction: HOST,
                entry: [0; LONGEST],
                count: 0,
            },
            panel: Waiting {
                direction: PANEL,
                entry: [0; LONGEST],
                count: 0,
            },
        }
    }
}

impl Waiting {
    // Bytes behind those that wait, where a recording of that size has room for both.
    fn add(&mut self, size: usize, more: &[u8]) -> Result<(), Ended> {
        let most = room(size);
        if most < self.count || most - self.count < more.len() {
            return Err(Ended::Full);
        }
        lists::paste(&mut self.entry, HEADER + self.count, more);
        self.count += more.len();
        Ok(())
    }

    // What waits is written as an entry behind so many bytes, and how many there are then. Of no bytes there is none.
    fn write<W: Write>(&mut self, file: &mut W, size: usize) -> Result<usize, Ended> {
        let n = self.count;
        if n == 0 {
            return Ok(size);
        }
        if room(size) < n {
            return Err(Ended::Full);
        }
        let header = recorder::header(self.direction, n);
        lists::paste(&mut self.entry, 0, &header);
        file.write_all(&self.entry[..HEADER + n])?;
        self.count = 0;
        Ok(size + HEADER + n)
    }
}

// A recording without entries, in a file of that name. Where there can be none, this is told.
pub fn begin<R: Files + Eprint + AllocGlobal>(rt: &R, name: &str) -> Option<Tape<R::File>> {
    let mut file = match File::create(rt, name) {
        Ok(made) => made,
        Err(why) => {
            fail(rt, "emulator: the recording cannot be opened", why);
            return None;
        }
    };
    if let Err(why) = file.write_all(&recorder::start()) {
        tell(rt, Ended::Unwritten(why));
        return None;
    }
    Some(Tape {
        file,
        size: ENTRIES,
    })
}

// Why a recording ended is told; the line goes on without it.
fn tell<R: Eprint + AllocGlobal>(rt: &R, why: Ended) {
    match why {
        Ended::Full => say(
            rt,
            "emulator: the recording is full, and the line goes on without it",
        ),
        Ended::Unwritten(why) => fail(rt, "emulator: the recording cannot be written", why),
    }
}

// What came of a line's recording: one that ended is told and closed.
pub fn kept_on<R: Eprint + AllocGlobal, W: Drop>(
    rt: &R,
    tape: &mut Option<Tape<W>>,
    came: Result<(), Ended>,
) {
    if let Err(why) = came {
        tell(rt, why);
        *tape = None;
    }
}

// What the last call took of the piece.
fn taken(s: Session, piece: &[u8]) -> &[u8] {
    let end = s.at.min(piece.len());
    let n = end.min(s.call.taken as usize);
    &piece[end - n..end]
}

impl<W: Write> Tape<W> {
    // What waits is written: an entry of the host, and behind it one of the panel.
    pub fn write(&mut self, waiting: &mut BothWaiting) -> Result<(), Ended> {
        self.size = waiting.host.write(&mut self.file, self.size)?;
        self.size = waiting.panel.write(&mut self.file, self.size)?;
        Ok(())
    }

    // A call more: what it took and what it replied waits, until nothing is held.
    pub fn hear(
        &mut self,
        waiting: &mut BothWaiting,
        s: Session,
        piece: &[u8; PIECE],
        desk: &Desk,
    ) -> Result<(), Ended> {
        if s.over {
            return Ok(());
        }
        waiting.host.add(self.size, taken(s, piece))?;
        waiting.panel.add(self.size, crate::replied(s, desk))?;
        if desk.held() == 0 {
            self.write(waiting)
        } else {
            Ok(())
        }
    }
}
