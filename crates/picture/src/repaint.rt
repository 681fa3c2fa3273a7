// The repaint, from the codes and glyphs before and after, and the picture drawn afresh.
ghost use Rattle.std.specs.Prelude.{◌≡◌, ◌&&◌, ◌<◌, ◌≤◌};
ghost use Rattle.std.specs.Str.{bytes_eq};
ghost use Rattle.glyphs.specs.Glyphs.{nested_of};
ghost use Rattle.sets.specs.Sets.{is_search};
ghost use Rattle.picture.specs.Draw.{cell_drawn, drawn, screen_of};
ghost use Rattle.picture.specs.Repaint.{glyph_stays, code_stays, Marks, LooksBy, looks_by_sets, looks_by_codes, LooksAt, RepaintsCell, Repaints, RepaintsSized, DrawsAll};

use crate::draw::{draw, glyph, put_cell};
use glyphs::is_special;
use panel::Shown;
use std::array;

// How many cells there are, the bytes of a picture and of a font, and the size of a change list.
const CELLS: usize = sets::CELLS;

pub const PICTURE: usize = 8 * CELLS;

pub const FONT: usize = 2048;

pub const LIST: usize = CELLS;

// A code that stays draws as it did where the glyphs are the same, or where it is not special.
fn stays(a: u8, b: u8, same: bool) -> bool
    ensures { result ≡ code_stays a b same }
{
    (a == b) & (same | !is_special(b))
}

// Whether the glyph is as before in whose set a cell is, by the cell's byte; a cell in no set has none that could change.
fn glyph_stays(mark: u8, before: &Shown, after: &Shown) -> bool
    requires { mark ≤ 8 }
    ensures { result ≡ glyph_stays mark (nested_of before.now.glyphs) (nested_of after.now.glyphs) }
{
    if mark == 0 {
        return true;
    }
    let number = usize::from(mark) - 1;
    glyph(before, number) == glyph(after, number)
}

// Whether the sets can be asked: the codes are as before, and the sets are theirs.
fn sets_serve(before: &Shown, after: &Shown, sets: &[u8; CELLS]) -> bool
    ensures { result ≡ bytes_eq before.now.text after.now.text && is_search after.now.text sets.now }
{
    before.text == after.text && sets::right(&after.text, sets)
}

// The cells in the sets of the glyphs that changed.
fn looked_by_sets(sets: &[u8; CELLS], before: &Shown, after: &Shown) -> [bool; CELLS]
    requires { Marks sets.now }
    ensures { LooksBy (looks_by_sets sets.now (nested_of before.now.glyphs) (nested_of after.now.glyphs)) result }
{
    array::from_fn(|cell| !glyph_stays(sets[cell], before, after))
}

// The cells whose codes do not say that they draw as they did.
fn looked_by_codes(before: &Shown, after: &Shown) -> [bool; CELLS]
    ensures { LooksBy (looks_by_codes before.now.text after.now.text (bytes_eq before.now.glyphs after.now.glyphs)) result }
{
    let same = before.glyphs == after.glyphs;
    array::from_fn(|cell| !stays(before.text[cell], after.text[cell], same))
}

// The cells to look at; all others draw as they did. Where the sets are asked, those in the sets of the glyphs that changed are, and no
// others.
fn looked(before: &Shown, after: &Shown, sets: &[u8; CELLS]) -> [bool; CELLS]
    ensures { LooksAt (screen_of before.now) (screen_of after.now) sets.now (bytes_eq before.now.text after.now.text && is_search after.now.text sets.now) result }
{
    if sets_serve(before, after, sets) {
        looked_by_sets(sets, before, after)
    } else {
        looked_by_codes(before, after)
    }
}

// A cell that draws otherwise is written; says whether it draws as it did.
fn repaint_cell(
    picture: &mut [u8; PICTURE],
    cell: usize,
    before: &Shown,
    after: &Shown,
    font: &[u8],
) -> bool
    requires { cell < 80 }
    ensures { RepaintsCell cell (cell_drawn (screen_of before.now) font.now cell) (cell_drawn (screen_of after.now) font.now cell) picture.old result picture.new }
{
    let was = draw(before, font, cell);
    let bytes = draw(after, font, cell);
    if was == bytes {
        return true;
    }
    put_cell(picture, cell, bytes);
    false
}

// Each cell that draws otherwise is written and listed.
// Kept: the place of the next cell is the count that the call gives back.
fn repaint_cells(
    picture: &mut [u8; PICTURE],
    list: &mut [u8; LIST],
    before: Shown,
    after: Shown,
    sets: [u8; CELLS],
    font: &[u8],
) -> usize
    ensures { Repaints (screen_of before) (screen_of after) font.now picture.old list.old result picture.new list.new }
{
    let look = looked(&before, &after, &sets);
    let mut listed = 0;
    for (cell, seen) in look.iter().enumerate() {
        if *seen && !repaint_cell(picture, cell, &before, &after, font) {
            list[listed] = cell as u8;
            listed += 1;
        }
    }
    listed
}

// Each cell that draws otherwise after than before is written and listed; where the picture or the list is not of its size,
// nothing is. The sets are those of the codes after; others make it slower, and nothing else.
// Kept: six parameters, since `RepaintsSized` and `repaint_determined` speak of each lent buffer.
pub fn repaint(
    picture: &mut [u8],
    list: &mut [u8],
    before: Shown,
    after: Shown,
    sets: [u8; CELLS],
    font: &[u8],
) -> usize
    ensures { RepaintsSized (screen_of before) (screen_of after) font.now picture.old list.old result picture.new list.new }
{
    let same = before.glyphs == after.glyphs;
    let kept = before.text == after.text;
    if same & kept {
        return 0;
    }
    let Some(picture) = picture.as_mut_array() else {
        return 0;
    };
    let Some(list) = list.as_mut_array() else {
        return 0;
    };
    repaint_cells(picture, list, before, after, sets, font)
}

// Every cell drawn, whatever the picture held.
// Kept: std says nothing of what a slice ends as that `as_chunks_mut` cut up, so that a cell is put by its number.
fn draw_cells(picture: &mut [u8; PICTURE], s: &Shown, font: &[u8])
    ensures { picture.new ≡ drawn (screen_of s.now) font.now }
{
    for cell in 0..CELLS {
        put_cell(picture, cell, draw(s, font, cell));
    }
}

// Every cell drawn; a picture that is not of its size is left.
pub fn draw_all(picture: &mut [u8], s: Shown, font: &[u8])
    ensures { DrawsAll (screen_of s) font.now picture.old picture.new }
{
    if let Some(picture) = picture.as_mut_array() {
        draw_cells(picture, &s, font);
    }
}
