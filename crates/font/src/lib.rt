// The programs' font.
#![tactic(auto)]

ghost use Rattle.font.specs.Font.{IsFont};

use picture::repaint::FONT;
use std::array;

// The rows of code c all equal c mod 64.
pub fn program_font() -> [u8; FONT]
    ensures { IsFont result }
{
    array::from_fn(|i| (i / 8 % 64) as u8)
}
