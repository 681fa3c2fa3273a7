// What the programs read and write: all of standard input, lines on standard output, and what went wrong on standard error.
#![tactic(auto)]

ghost use Rattle.std.specs.Prelude.{◌≤◌, length};
ghost use Rattle.telling.specs.Unread.{SaysUnread};

use std::io;
use std::io::{ErrorKind, Read};

// A line on standard error. Where that cannot be written either, nobody can be told.
pub fn say<R: Eprint>(rt: &R, words: &str) {
    let _ = rt.eprintln(words);
}

// Whether a write failed because nobody reads, which ends a program without a word.
pub fn is_unread(written: io::Result<()>) -> bool
    ensures { SaysUnread written result }
{
    written.is_err_and(|why| why.kind() == ErrorKind::BrokenPipe)
}

// Writes bytes to standard output. A failed write is told on standard error in these words, but for one that nobody reads.
pub fn write<R: Print + Eprint>(rt: &R, bytes: &[u8], words: &str) -> io::Result<()> {
    let written = rt.write_all(bytes);
    if written.is_err() && !is_unread(written) {
        say(rt, words);
    }
    written
}

// Fills the room from a reader, as far as that goes: how many bytes were read, and whether a read failed, which is not taken
// for the end of the input.
// Kept: each turn goes on by as many bytes as were read.
pub fn fill<R: Read>(reader: &mut R, room: &mut [u8]) -> (usize, io::Result<()>)
    ensures { result.0 ≤ length room.new }
{
    let mut n = 0;
    while n < room.len() {
        match reader.read(&mut room[n..]) {
            Ok(0) => return (n, Ok(())),
            Ok(more) => n += more,
            Err(why) => return (n, Err(why)),
        }
    }
    (n, Ok(()))
}
