// What a call says, and what a panel and its register hold. The word that a line begins with stands already.
ghost use Rattle.std.specs.Prelude.{◌≤◌};

use crate::text::{bytes, decimal, end, filled, hex, labelled, plain, word};
use crate::words::Word;
use filing::Record;
use saidreads::told;
use session::{Desk, sizes};
use statebytes::places::{COLUMN, COUNT, DOWN, LAST, LIVE};
use std::array;
use std::io::Stdout;

// The room that a symbol's list is in: one byte more than a list has.
pub const ROOM: usize = sizes::LIST + 1;

// A line for a line call, unless it waits: its answer, the reply and the cells listed.
pub fn line(stdout: Stdout, desk: &Desk) {
    let c = told(&desk.said);
    if c.number != 1 {
        filled(stdout, b"line: % % % % reply", &desk.said);
        bytes(stdout, &desk.reply, 0, c.reply, hex);
        word(stdout, b" cells");
        bytes(stdout, &desk.list, 0, c.listed, plain);
        end(stdout);
    }
}

// For a key call its number and the report.
pub fn key(stdout: Stdout, desk: &Desk) {
    filled(stdout, b": % reply", &desk.said);
    bytes(stdout, &desk.reply, 0, told(&desk.said).reply, hex);
    end(stdout);
}

// For the cells of a symbol its number, the cells, and the checksum of the room that the list is in.
pub fn cells(stdout: Stdout, said: &[u8; sizes::SAID], room: &[u8; ROOM]) {
    filled(stdout, b": % cells", said);
    bytes(stdout, room, 0, told(said).listed, plain);
    word(stdout, b" list");
    crate::text::checksum(stdout, room);
}

// For any other call its number.
pub fn call(stdout: Stdout, said: &[u8; sizes::SAID]) {
    filled(stdout, b": %\n", said);
}

// A line for a record in use.
fn fault(stdout: Stdout, place: u8, r: &Record) {
    if 0 < r.count {
        filled(
            stdout,
            b"fault %: % % %",
            &[place, r.command, r.reason, r.place],
        );
        labelled(stdout, b" count ", r.count as usize);
        end(stdout);
    }
}

// The records in use, and the unfiled number.
fn register(stdout: Stdout, desk: &Desk) {
    let records = registerbytes::read(&desk.faults);
    for (place, r) in records.iter().enumerate() {
        fault(stdout, place as u8, r);
    }
    let kept = statebytes::line::read_line(&desk.state);
    labelled(stdout, b"unfiled ", kept.unfiled as usize);
    end(stdout);
}

// The bits of the pins' three bytes, five of each.
fn pins(state: &[u8; sizes::STATE]) -> [u8; 15] {
    array::from_fn(|i| (lists::at(state, LAST + i / 5) >> (i % 5)) % 2)
}

// The state, but for the texts, glyphs and flash, which commands read, and the sets.
pub fn state(stdout: Stdout, state: &[u8; sizes::STATE]) {
    filled(
        stdout,
        b": cursor % % style % contrast % backlight % masks % % levels % % % % % % % % % % % % % configs % % % % %",
        &state[LIVE + COLUMN..],
    );
    filled(stdout, b" down % pressed % released %", &state[DOWN..]);
    filled(
        stdout,
        b" last % % % % % fell % % % % % rose % % % % %",
        &pins(state),
    );
    filled(stdout, b" held %\n", &state[COUNT..]);
}

// The eight bytes of a cell.
fn cell(stdout: Stdout, picture: &[u8], n: usize)
    requires { n ≤ 255 }
{
    labelled(stdout, b" ", n);
    word(stdout, b":");
    bytes(stdout, picture, 8 * n, 8 * n + 8, hex);
    end(stdout);
}

// What a word shows of the panel, if it is one that shows something.
pub fn run(stdout: Stdout, name: Word, line: &[u8], desk: &Desk) {
    match name {
        Word::Faults => register(stdout, desk),
        Word::State => state(stdout, &desk.state),
        Word::Cell => cell(stdout, &desk.picture, decimal(line, 0, 255)),
        Word::Picture => crate::text::checksum(stdout, &desk.picture),
        Word::Power => crate::wrong::power(stdout, line),
        Word::Cells => crate::wrong::cells(stdout, line, &desk.state),
        _ => {}
    }
}
