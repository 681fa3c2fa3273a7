// Drawing: the eight bytes of a cell, and where they stand in the picture.
ghost use Rattle.std.specs.Prelude.{◌≡◌, ◌<◌, [], get_or};
ghost use Rattle.glyphs.specs.Glyphs.{nested_of};
ghost use Rattle.picture.specs.Draw.{low_six, cell_drawn, put, screen_of};

use crate::repaint::PICTURE;
use glyphs::{GLYPHS, ROWS, is_special};
use panel::Shown;
use std::array;

fn low_six(rows: [u8; ROWS]) -> [u8; ROWS]
    ensures { result ≡ low_six rows }
{
    array::from_fn(|row| rows[row] % 64)
}

// The rows of a special glyph.
pub fn glyph(s: &Shown, number: usize) -> [u8; ROWS]
    requires { number < 8 }
    ensures { result ≡ get_or (nested_of s.now.glyphs) number [] }
{
    glyphs::nested(s.glyphs)[number]
}

// The eight bytes that a cell draws.
// Kept: no type of std's is a number below 80, so that three functions on a cell ask for it.
pub fn draw(s: &Shown, font: &[u8], cell: usize) -> [u8; ROWS]
    requires { cell < 80 }
    ensures { result ≡ cell_drawn (screen_of s.now) font.now cell }
{
    let code = s.text[cell];
    if is_special(code) {
        glyph(s, usize::from(code) % GLYPHS)
    } else {
        low_six(glyphs::eight(font, 8 * u16::from(code)))
    }
}

// A cell's eight bytes into the picture.
pub fn put_cell(picture: &mut [u8; PICTURE], cell: usize, bytes: [u8; ROWS])
    requires { cell < 80 }
    ensures { picture.new ≡ put cell bytes picture.old 8 }
{
    lists::paste(picture, ROWS * cell, &bytes);
}
