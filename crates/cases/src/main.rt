// Runs the cases that standard input lists, and prints what comes of each.
// A line with the word # is printed as it is and starts a case: nothing held, the panel at power-on, an empty
// register and the programs' font. Any other line is a word and what belongs to it; words.rt has them all.
// Of the framing, with bytes in hexadecimal: "sum" prints their checksum; "compose" takes the first as a type and prints the
// packet of the rest; "scan" calls until all is taken and the answer is waiting, and prints the packets found; "cuts" does
// so with the bytes cut in two at each place.
// Of the panel: "line" and bytes in hexadecimal calls so too, and prints of each call that does not wait the answer's
// number, command, reason, place, the reply and the cells listed; a refusal is filed. "value" makes the same calls by value
// and not over bytes. "press" and "release" name a key, "high" and "low" a pin. "state" prints the state, "faults" the
// register, "cell" a cell's bytes, "picture" the checksum of the whole picture; "cells" asks which cells a glyph is on, in a list of
// the size behind it, and prints the number, the cells and the checksum of the list's room. "sizes", "power" and "lend" try
// buffers of other sizes; "set", "count" and "unfiled" set a value that no command sets, "mark" a cell's byte in the sets, "font" a
// code's rows.
// Of the host's side: "ask" takes the first byte as a code and composes it with the rest, "text" the first two as a column and a
// row; both print what the call says and the packet. "read" prints what a panel means by the bytes: the number, the kind, the
// command, how many values and the values.
// Of recordings: "tape" puts bytes behind those of the case's recording, and "fill" a number of times the byte behind that number;
// "next" asks for the next host packet from a place on and prints what the call says, and the packet's data.

#![tactic(auto)]

mod device;
mod frames;
mod hosts;
mod show;
mod tapes;
mod text;
mod value;
mod words;
mod wrong;

use std::io::Stdout;

// Room for a script.
const SCRIPT: usize = 65536;

// The cases, one line after the other.
fn run(stdout: Stdout, script: &[u8]) {
    let mut desk = device::begin();
    let mut held = packets::empty();
    let mut tape = tapes::empty();
    for line in script.split(|b| *b == b'\n') {
        if let Some(word) = words::read(stdout, line) {
            let mut room = [0u8; 256];
            let n = text::bytes_of(line, &mut room);
            let bytes = &room[..n];
            held = frames::run(stdout, word, bytes, held);
            device::run(stdout, word, line, bytes, &mut desk);
            show::run(stdout, word, line, &desk);
            hosts::run(stdout, word, bytes);
            tape.run(stdout, word, line, bytes);
        }
    }
}

fn main(rt: HostRuntime) {
    let mut script = [0u8; SCRIPT];
    let (n, _) = telling::fill(&mut rt.stdin(), &mut script);
    run(rt.stdout(), &script[..n]);
}
