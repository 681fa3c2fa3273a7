// The panel on standard input and output: host bytes in, reply packets out, so that a real host can be attached. With the
// argument `glass` it also draws the glass on standard error, and with `record FILE` it writes a recording of the line.
#![tactic(auto)]

mod faults;
mod font;
mod glass;
mod input;
mod tape;

use faults::fail;
use input::HostInput;
use kept::{Session, going};
use session::Desk;
use session::sizes::PIECE;
use std::env::{Env, FillError};
use std::fs::File;
use std::io;
use std::io::{Read, Stderr, Write};
use tape::{BothWaiting, Tape};
use telling::{is_unread, say};

// Room for the name of a recording, as long as the system takes one.
const NAME: usize = 4096;

// The system's number for a name that is longer.
const TOO_LONG: i32 = 36;

// An argument.
#[derive(Clone, Copy)]
enum Argument {
    Glass,
    Record,
    Other,
}

// What a call replied.
fn replied(s: Session, desk: &Desk) -> &[u8] {
    let n = s.call.reply.min(desk.reply.len());
    &desk.reply[..n]
}

// Sends a reply to the host, at once. A failed write is told on standard error.
fn send<R: Print + Eprint + AllocGlobal>(rt: &R, reply: &[u8]) -> io::Result<()> {
    let sent = rt.write_all(reply);
    if let Err(why) = sent {
        if !is_unread(sent) {
            fail(rt, "emulator: standard output cannot be written", why);
        }
    }
    sent
}

// The cells that a call listed, where the glass is drawn and there are some.
fn draw(glass: Option<Stderr>, s: Session, desk: &Desk) -> io::Result<()> {
    match glass {
        Some(errors) if 0 < s.call.listed => {
            glass::draw(&errors, &desk.picture, &desk.list, s.call.listed)
        }
        _ => Ok(()),
    }
}

// What a call replies and draws; the session ends where the reply cannot be written, and where nobody reads the glass.
fn told<R: Print + Eprint + AllocGlobal>(
    rt: &R,
    glass: Option<Stderr>,
    s: Session,
    desk: &Desk,
) -> Session {
    if s.over {
        return s;
    }
    let sent = send(rt, replied(s, desk));
    let unseen = !is_unread(sent) && is_unread(draw(glass, s, desk));
    if sent.is_ok() & !unseen {
        return s;
    }
    Session {
        over: true,
        lost: true,
        ..s
    }
}

// The steps of a session, to its end, on tape.
// Kept: the steps are counted, since a proved loop has to end (`going`).
fn hear<R: Print + Eprint + AllocGlobal, I: Read, W: Write + Drop>(
    rt: &R,
    glass: Option<Stderr>,
    input: &mut I,
    tape: &mut Option<Tape<W>>,
    desk: &mut Desk,
) {
    let mut piece = [0u8; PIECE];
    let mut waiting = BothWaiting::none();
    let mut s = kept::started();
    for steps in 0..u64::MAX {
        if !going(steps, s.over) {
            break;
        }
        s = desk.step(s, input, &mut piece);
        let came = match tape {
            Some(t) => t.hear(&mut waiting, s, &piece, desk),
            None => Ok(()),
        };
        tape::kept_on(rt, tape, came);
        s = told(rt, glass, s, desk);
    }
    let came = match tape {
        Some(t) => t.write(&mut waiting),
        None => Ok(()),
    };
    tape::kept_on(rt, tape, came);
}

// From power-on to the end of the input. A failed read is told on standard error, and is not taken for the end.
fn run<R: Print + Eprint + AllocGlobal, I: Read + Drop, W: Write + Drop>(
    rt: &R,
    glass: Option<Stderr>,
    input: I,
    tape: Option<Tape<W>>,
) {
    let mut desk = Desk::powered_on(font::with_block());
    if let Some(errors) = glass {
        if is_unread(glass::draw_first(&errors, &desk.picture)) {
            return;
        }
    }
    let mut heard = HostInput { input, fault: None };
    let mut file = tape;
    hear(rt, glass, &mut heard, &mut file, &mut desk);
    if let Some(why) = heard.fault {
        fail(rt, "emulator: standard input cannot be read", why);
    }
}

// The argument of that number, where there is one.
fn argument_at<R: Env>(rt: &R, i: usize) -> Option<Argument> {
    let mut room = [0u8; 8];
    match rt.arg(i, &mut room) {
        Ok(n) => match &room[..n] {
            b"glass" => Some(Argument::Glass),
            b"record" => Some(Argument::Record),
            _ => Some(Argument::Other),
        },
        Err(FillError::TooLong) => Some(Argument::Other),
        Err(FillError::NotPresent) => None,
    }
}

// Without a recording.
fn unrecorded(rt: HostRuntime, glass: Option<Stderr>) {
    let tape: Option<Tape<File>> = None;
    run(&rt, glass, rt.stdin(), tape);
}

// On tape in the file of that name.
fn record_in(rt: HostRuntime, name: &str, glass: Option<Stderr>) {
    let tape = tape::begin(&rt, name);
    if tape.is_some() {
        run(&rt, glass, rt.stdin(), tape);
    }
}

// On tape in the file that an argument names.
fn record(rt: HostRuntime, i: usize, glass: Option<Stderr>) {
    let mut name = [0u8; NAME];
    match rt.arg(i, &mut name) {
        Ok(n) => match str::from_utf8(&name[..n]) {
            Ok(text) => record_in(rt, text, glass),
            Err(_) => say(&rt, "emulator: the recording's name is not UTF-8"),
        },
        Err(_) => {
            let why = io::Error::from_raw_os_error(TOO_LONG);
            fail(&rt, "emulator: the recording's name", why);
        }
    }
}

fn main(rt: HostRuntime) {
    use Argument::{Glass, Record};
    let arguments = (
        argument_at(&rt, 1),
        argument_at(&rt, 2),
        argument_at(&rt, 3),
        argument_at(&rt, 4),
    );
    let glass = Some(rt.stderr());
    match arguments {
        (None, _, _, _) => unrecorded(rt, None),
        (Some(Glass), None, _, _) => unrecorded(rt, glass),
        (Some(Record), Some(_), None, _) => record(rt, 2, None),
        (Some(Record), Some(_), Some(Glass), None) => record(rt, 2, glass),
        (Some(Glass), Some(Record), Some(_), None) => record(rt, 3, glass),
        _ => say(
            &rt,
            "emulator: the arguments are glass, and record with the name of a file",
        ),
    }
}
