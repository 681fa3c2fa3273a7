// Pin events.
ghost use Rattle.std.specs.Prelude.{◌≡◌, ◌<◌, ◌≤◌, OnOk};
ghost use Rattle.answers.specs.Checks.{checked_by};
ghost use Rattle.events.specs.Pins.{pin_event, pin_tests, Moves};

use answers::{Answer, Check, Said, also, nothing_taken};
use panel::{Panel, Pins};

// The level, and the edge if it changed.
#[tactic(auto, using(lists::proofs::Laws::when_true, lists::proofs::Laws::when_false), unfolding(crate::specs::Pins::pin_moved))]
fn after_event(p: Pins, number: u8, high: bool) -> Pins
    requires { number < 5 }
    ensures { result ≡ pin_event high number p }
{
    match (bits::is_on(p.last, number), high) {
        (true, true) | (false, false) => p,
        (false, true) => Pins {
            last: bits::with_bit(p.last, number),
            rose: bits::with_bit(p.rose, number),
            ..p
        },
        (true, false) => Pins {
            last: bits::without_bit(p.last, number),
            fell: bits::with_bit(p.fell, number),
            ..p
        },
    }
}

// The checks of a pin call, in the order of their numbers.
// Kept: whether the panel is in its ranges is asked before, as for a key.
fn checked(in_ranges: bool, number: u32) -> Result<(), Check>
    ensures first { result ≡ checked_by (pin_tests in_ranges number) }
    ensures known { OnOk result (number ≤ 4) }
{
    let state = also(Ok(()), in_ranges, Check::StateRange);
    also(state, number <= 4, Check::KeyOrPin)
}

// A pin's level as it is now.
pub fn pin(mut p: Panel, number: u32, high: bool) -> Said
    ensures { Moves p number high result }
{
    match checked(ranges::in_ranges(p), number) {
        Err(check) => nothing_taken(p, Answer::CallRefused(check), 0),
        Ok(()) => {
            p.body.pins = after_event(p.body.pins, number as u8, high);
            nothing_taken(p, Answer::Done(0), 0)
        }
    }
}
