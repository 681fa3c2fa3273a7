// The cells that draw each special glyph, kept beside the text: a byte for each cell, 1 + the number of the glyph whose set it is
// in, 0 where it is in none. So the test of 80 cells, which every call makes, is a few steps for sixteen cells at a time.
#![tactic(auto)]

ghost use Rattle.std.specs.Prelude.{◌≡◌, ◌<◌, get_or};
ghost use Rattle.sets.specs.Sets.{mark_of, Searches, ComparesSets};

use std::array;

// How many cells there are.
pub const CELLS: usize = 80;

// How many glyphs there are: codes that far apart draw the same one.
const GLYPHS: u8 = glyphs::GLYPHS as u8;

// The byte of a cell with that code.
#[tactic(auto, using(lists::proofs::Laws::when_true, lists::proofs::Laws::when_false), unfolding(glyphs::specs::Source::source_of, crate::specs::Sets::mark_for))]
fn mark_of(code: u8) -> u8
    ensures { result ≡ mark_of code }
{
    if glyphs::is_special(code) {
        code % GLYPHS + 1
    } else {
        0
    }
}

// The sets that a search of the text finds.
pub fn search(text: [u8; CELLS]) -> [u8; CELLS]
    ensures { Searches text result }
{
    array::from_fn(
        |cell| -> u8
            requires { cell < CELLS }
            ensures { result ≡ mark_of (get_or text cell 0) }
        { mark_of(text[cell]) },
    )
}

// Whether the sets are those that a search of the text finds. No cell ends the test, so that it goes sixteen cells at a time.
pub fn right(text: &[u8], sets: &[u8]) -> bool
    ensures { ComparesSets text.now sets.now result }
{
    if sets.len() != text.len() {
        return false;
    }
    sets.iter()
        .zip(text)
        .fold(true, |ok, (mark, code)| ok & (*mark == mark_of(*code)))
}
