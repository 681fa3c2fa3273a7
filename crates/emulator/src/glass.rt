// The glass on standard error, dot by dot from the painted picture: a cell is three braille characters wide and two high,
// inside a frame at the top left of the screen.
ghost use Rattle.std.specs.Prelude.{◌<◌};

use std::{array, io};

// Four lines of a cell, from the top: the upper half or the lower.
fn four_of(picture: &[u8], cell: u8, half: u8) -> [u8; 4] {
    let first = usize::from(cell) * 8 + usize::from(half) * 4;
    array::from_fn(|i| lists::at(picture, first + i))
}

// Two neighbours of a line, from the left: pair 0, 1 or 2. The left dot counts 2 and the right dot 1.
// Kept: a shift by 4, 2 or 0 would ask that k is no more than 2, and say less.
fn pair(line: u8, k: u8) -> u8 {
    match k {
        0 => line / 16 % 4,
        1 => line / 4 % 4,
        _ => line % 4,
    }
}

// Kept: a pair is two bits of the picture, and is no kind of anything.
fn shown(pair: u8, left: u8, right: u8) -> u8 {
    match pair {
        1 => right,
        2 => left,
        3 => left | right,
        _ => 0,
    }
}

// A braille character's number after 0x2800: from the top, its left dots count 1, 2, 4, 64 and its right dots 8, 16, 32, 128.
fn braille([a, b, c, d]: [u8; 4], k: u8) -> u8 {
    let upper = shown(pair(a, k), 1, 8) | shown(pair(b, k), 2, 16);
    let lower = shown(pair(c, k), 4, 32) | shown(pair(d, k), 64, 128);
    upper | lower
}

// The second and third of the three UTF-8 bytes of a braille character; the first is 0xE2.
fn middle(dots: u8) -> u8 {
    160 + dots / 64
}

fn last(dots: u8) -> u8 {
    128 + dots % 64
}

fn tens(n: u8) -> u8 {
    b'0' + n / 10 % 10
}

fn ones(n: u8) -> u8 {
    b'0' + n % 10
}

// How long the text of half a cell is, and of a cell; and the text of up to 80 cells and of the cursor's parking place.
const HALF: usize = 17;

const CELL: usize = HALF + HALF;

const PARKING: usize = 8;

const SCREEN: usize = 80 * CELL + PARKING;

// Half a cell: the cursor is moved to its place, and three characters follow.
fn half_text(lines: [u8; 4], row: u8, column: u8) -> [u8; HALF] {
    let x = braille(lines, 0);
    let y = braille(lines, 1);
    let z = braille(lines, 2);
    [
        27,
        b'[',
        tens(row),
        ones(row),
        b';',
        tens(column),
        ones(column),
        b'H',
        0xE2,
        middle(x),
        last(x),
        0xE2,
        middle(y),
        last(y),
        0xE2,
        middle(z),
        last(z),
    ]
}

// A cell's text behind that of `i` others. The frame is one character wide, so that cell 0 begins at the second row and column.
fn with_cell(out: &mut [u8], i: usize, picture: &[u8], cell: u8)
    requires { i < 80 }
{
    let row = cell / 20 * 2 + 2;
    let column = cell % 20 * 3 + 2;
    let upper = half_text(four_of(picture, cell, 0), row, column);
    let lower = half_text(four_of(picture, cell, 1), row + 1, column);
    lists::paste(out, i * CELL, &upper);
    lists::paste(out, i * CELL + HALF, &lower);
}

// The listed cells as the picture has them, written at once, and the cursor parked below the frame.
// Kept: by chunks of the text beside the list, what stands behind the last cell's would be found by a count again.
pub fn draw<E: Print>(errors: &E, picture: &[u8], list: &[u8], listed: usize) -> io::Result<()> {
    let cells = listed.min(80);
    let mut out = [0u8; SCREEN];
    for i in 0..cells {
        with_cell(&mut out, i, picture, lists::at(list, i));
    }
    lists::paste(&mut out, cells * CELL, b"\x1b[11;01H");
    errors.write_all(&out[..cells * CELL + PARKING])
}

fn stroke<E: Print>(errors: &E) {
    let _ = errors.write_all(b"\xe2\x94\x80");
}

// Sixty horizontal strokes of the frame.
fn strokes<E: Print>(errors: &E) {
    for _ in 0..60usize {
        stroke(errors);
    }
}

// The frame's left and right sides beside a row of characters.
fn sides<E: Print>(errors: &E, row: u8) {
    let t = tens(row);
    let o = ones(row);
    let _ = errors.write_all(&[27, b'[', t, o]);
    let _ = errors.write_all(b";01H\xe2\x94\x82");
    let _ = errors.write_all(&[27, b'[', t, o]);
    let _ = errors.write_all(b";62H\xe2\x94\x82");
}

fn all_sides<E: Print>(errors: &E) {
    for row in 2..10 {
        sides(errors, row);
    }
}

// The screen cleared and the frame around the glass.
fn frame<E: Print>(errors: &E) {
    let _ = errors.write_all(b"\x1b[2J\x1b[01;01H\xe2\x94\x8c");
    strokes(errors);
    let _ = errors.write_all(b"\xe2\x94\x90");
    all_sides(errors);
    let _ = errors.write_all(b"\x1b[10;01H\xe2\x94\x94");
    strokes(errors);
    let _ = errors.write_all(b"\xe2\x94\x98");
}

// The whole glass for the first time.
pub fn draw_first<E: Print>(errors: &E, picture: &[u8]) -> io::Result<()> {
    frame(errors);
    let every_cell: [u8; 80] = array::from_fn(|i| i as u8);
    draw(errors, picture, &every_cell, 80)
}
