// Power-on.
#![tactic(auto)]

ghost use Rattle.std.specs.Prelude.{◌≡◌};
ghost use Rattle.answers.specs.Checks.{checked_by};
ghost use Rattle.power.specs.Power.{power_tests, PowersOn};

use answers::{Answer, Check, Said, also, nothing_taken};
use picture::repaint::{FONT, PICTURE};

// The checks of a power-on, in the order of their numbers.
fn checked(picture: usize, font: usize) -> Result<(), Check>
    ensures { result ≡ checked_by (power_tests picture font) }
{
    let drawn = also(Ok(()), picture == PICTURE, Check::PictureSize);
    also(drawn, font == FONT, Check::FontSize)
}

// The panel at power-on. All 640 bytes of the picture are drawn; a refused call still returns the power-on state.
pub fn power_on(picture: &mut [u8], font: &[u8]) -> Said
    ensures { PowersOn picture.old font.now result picture.new }
{
    let p = panel::powered_on();
    match checked(picture.len(), font.len()) {
        Err(check) => nothing_taken(p, Answer::CallRefused(check), 0),
        Ok(()) => {
            picture::repaint::draw_all(picture, p.body.live.shown, font);
            nothing_taken(p, Answer::Done(0), 0)
        }
    }
}
