// Which cells a symbol is on: menu designers ask before they redefine it (document 02, order 4).
#![tactic(auto)]

ghost use Rattle.std.specs.Prelude.{◌≡◌, ◌≤◌, length, OnOk};
ghost use Rattle.answers.specs.Checks.{checked_by};
ghost use Rattle.symbols.specs.Symbols.{cells_tests, ListsCells, TellsCells};

use answers::{Answer, Check, Said, also, nothing_taken};
use panel::Panel;
use sets::CELLS;

// The set of a glyph at the front of the list, rising, and how many cells it has.
// Kept: the place of the next cell is the count that the call gives back; the list is a slice, since one contract alone speaks of its 80.
fn list_cells(sets: [u8; CELLS], glyph: u8, list: &mut [u8]) -> usize
    requires { (glyph ≤ 7) × (length list.old ≡ 80) }
    ensures { ListsCells sets glyph list.old result list.new }
{
    let mut listed: usize = 0;
    for (cell, mark) in sets.iter().enumerate() {
        if *mark == glyph + 1 {
            list[listed] = cell as u8;
            listed += 1;
        }
    }
    listed
}

// The checks of a call: the glyph comes before the list's size.
// Kept: whether the panel is in its ranges is asked before, as for a key.
fn checked(in_ranges: bool, glyph: u32, list: usize) -> Result<(), Check>
    ensures first { result ≡ checked_by (cells_tests in_ranges glyph list) }
    ensures fits { OnOk result ((glyph ≤ 7) × (list ≡ 80)) }
{
    let state = also(Ok(()), in_ranges, Check::StateRange);
    let known = also(state, glyph <= 7, Check::GlyphNumber);
    also(known, list == CELLS, Check::ListSize)
}

// The cells whose code in the live text draws the glyph. The panel is only read.
pub fn cells(p: Panel, glyph: u32, list: &mut [u8]) -> Said
    ensures { TellsCells p glyph list.old result list.new }
{
    match checked(ranges::in_ranges(p), glyph, list.len()) {
        Err(check) => nothing_taken(p, Answer::CallRefused(check), 0),
        Ok(()) => {
            let listed = list_cells(p.body.sets, glyph as u8, list);
            let told = nothing_taken(p, Answer::Done(0), 0);
            Said { listed, ..told }
        }
    }
}
