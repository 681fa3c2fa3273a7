// The line program: host bytes on standard input, a line of text a packet on standard output.
#![tactic(auto)]

use kept::{Session, going};
use session::Desk;
use session::sizes::PIECE;
use std::io;
use std::io::Read;
use tally::WAITING;

// A line on standard output.
fn write<R: Print + Eprint>(rt: &R, line: &[u8]) -> io::Result<()> {
    telling::write(rt, line, "line: standard output cannot be written")
}

// The line of the packet that the last call found; the session ends where it cannot be written.
fn told<R: Print + Eprint>(rt: &R, s: Session) -> Session {
    if s.over | (s.call.number == WAITING) {
        return s;
    }
    let mut out = [0u8; 200];
    let n = lines::event(&mut out, s.sums.events, s.sums.offset, s.call);
    match write(rt, &out[..n]) {
        Ok(()) => s,
        Err(_) => Session {
            over: true,
            lost: true,
            ..s
        },
    }
}

// The steps of a session, to its end.
// Kept: the steps are counted, since a proved loop has to end (`going`).
fn hear<R: Print + Eprint, I: Read>(rt: &R, input: &mut I, desk: &mut Desk) -> Session {
    let mut piece = [0u8; PIECE];
    let mut s = kept::started();
    for steps in 0..u64::MAX {
        if !going(steps, s.over) {
            break;
        }
        s = told(rt, desk.step(s, input, &mut piece));
    }
    s
}

// A failed read is told on standard error, and the last line is written, unless output was lost.
fn finish<R: Print + Eprint>(rt: &R, s: Session, held: u64) {
    if s.failed {
        telling::say(rt, "line: standard input cannot be read");
    }
    if s.lost {
        return;
    }
    let mut out = [0u8; 200];
    let n = lines::end(&mut out, s.sums, held);
    let _ = write(rt, &out[..n]);
}

fn main(rt: HostRuntime) {
    if write(&rt, b"event offset kind command reason place cells\n").is_err() {
        return;
    }
    let mut desk = Desk::powered_on(font::program_font());
    let s = hear(&rt, &mut rt.stdin(), &mut desk);
    finish(&rt, s, desk.held());
}
