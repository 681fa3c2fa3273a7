// The line's part of the state: read where it stands, and written over it.
ghost use Rattle.std.specs.Prelude.{◌+◌, ◌≤◌, length};
ghost use Rattle.shapes.specs.Shape.{run, Stands, Lays};
ghost use Rattle.statebytes.specs.Layout.{line_shape, line_parts};
ghost use Rattle.statebytes.specs.State.{ReadsLine, WritesLine};

use crate::places::{COUNT, HELD, SIZE, UNFILED};
use packets::Hold;
use panel::Line;
use shapes::words::{WORD, word_of};
use shapes::{lay_byte, lay_word};

// The N bytes that stand at a place.
fn part<const N: usize>(bytes: &[u8], place: usize) -> &[u8; N]
    requires { place + N ≤ length bytes.now }
    ensures { Stands (run N) result.now bytes.now place }
{
    match bytes[place..].first_chunk() {
        Some(part) => part,
        None => unreachable!(),
    }
}

fn line_of(state: &[u8; SIZE]) -> Line
    ensures { Stands line_shape (line_parts result) state.now 0 }
{
    let hold = Hold {
        bytes: *part(state, HELD),
        count: usize::from(state[COUNT]),
    };
    let [a, b, c, d]: [u8; WORD] = *part(state, UNFILED);
    Line {
        hold,
        unfiled: word_of(a, b, c, d),
    }
}

// The line's part that the bytes have; of bytes that are no state, the one at power-on.
pub fn read_line(state: &[u8]) -> Line
    ensures { ReadsLine state.now result }
{
    match state.as_array() {
        Some(state) => line_of(state),
        None => panel::powered_on().line,
    }
}

// Kept: the remainder says what the state's one byte keeps of a count; `as u8` alone would not show it.
fn lay_line(state: &mut [u8; SIZE], l: Line)
    ensures { Lays line_shape (line_parts l) state.old 0 state.new }
{
    lay_byte(state, COUNT, (l.hold.count % 256) as u8);
    lists::paste(state, HELD, &l.hold.bytes);
    lay_word(state, UNFILED, l.unfiled);
}

// The line's part written, and the body as it stands; bytes that are no state are left alone.
pub fn write_line(state: &mut [u8], l: Line)
    ensures { WritesLine state.old l state.new }
{
    if let Some(state) = state.as_mut_array() {
        lay_line(state, l);
    }
}
