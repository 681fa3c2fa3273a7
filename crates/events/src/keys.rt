// Key events.
ghost use Rattle.std.specs.Prelude.{◌≡◌, ◌≤◌, OnOk};
ghost use Rattle.answers.specs.Checks.{checked_by};
ghost use Rattle.events.specs.Keys.{key_event, mask_for, report_code, as_told, key_tests, ReportsBy, Presses};

use answers::{Answer, Check, Said, also, nothing_taken};
use packets::REPLY;
use panel::{Keys, Masks, Panel};

#[tactic(auto, using(lists::proofs::Laws::when_true, lists::proofs::Laws::when_false), unfolding(crate::specs::Keys::key_event))]
fn after_event(k: Keys, number: u8, down: bool) -> Keys
    requires { number ≤ 5 }
    ensures { result ≡ key_event down number k }
{
    if down {
        Keys {
            down: bits::with_bit(k.down, number),
            pressed: bits::with_bit(k.pressed, number),
            ..k
        }
    } else {
        Keys {
            down: bits::without_bit(k.down, number),
            released: bits::with_bit(k.released, number),
            ..k
        }
    }
}

// The mask that says whether an event is reported.
fn mask_for(m: Masks, down: bool) -> u8
    ensures { result ≡ mask_for down m }
{
    if down { m.press } else { m.release }
}

// The byte that reports an event, by key number: up 1, enter 5, cancel 6, left 3, right 4, down 2 for a press, plus 6 for a
// release.
// Kept: the keys' numbers and their codes are the paper's, and C's (`report_code`).
fn report_code(number: u8, down: bool) -> u8
    ensures { result ≡ report_code down number }
{
    let pressed = lists::at(&[1, 5, 6, 3, 4, 2], number as usize);
    if down { pressed } else { pressed + 6 }
}

// Whether a key is up or down as told. Of a key's number above 255 it makes nothing.
fn as_told(k: Keys, number: u32, down: bool) -> bool
    ensures { result ≡ as_told down number k }
{
    match u8::try_from(number) {
        Ok(n) => bits::is_on(k.down, n) == down,
        Err(_) => !down,
    }
}

// The report of an event, if the mask asks for one, in the front of the reply buffer.
#[tactic(auto, using(lists::proofs::Laws::when_true, lists::proofs::Laws::when_false))]
fn report(mask: u8, number: u8, down: bool, reply: &mut [u8]) -> usize
    ensures { ReportsBy mask number down reply.old result reply.new }
{
    if !bits::is_on(mask, number) {
        return 0;
    }
    packets::compose(reply, 128, &[report_code(number, down)])
}

// The checks of a key call, in the order of their numbers.
// Kept: whether the panel is in its ranges is asked before, since a panel by value would be copied once more.
fn checked(in_ranges: bool, keys: Keys, number: u32, down: bool, reply: usize) -> Result<(), Check>
    ensures first { result ≡ checked_by (key_tests in_ranges reply number down keys) }
    ensures known { OnOk result (number ≤ 5) }
{
    let state = also(Ok(()), in_ranges, Check::StateRange);
    let room = also(state, reply == REPLY, Check::ReplySize);
    let known = also(room, number <= 5, Check::KeyOrPin);
    also(known, !as_told(keys, number, down), Check::KeyAsTold)
}

// A key goes down or up. Its report, if the mask asks for one, is written into the front of the reply buffer.
pub fn key(mut p: Panel, number: u32, down: bool, reply: &mut [u8]) -> Said
    ensures { Presses p number down reply.old result reply.new }
{
    match checked(ranges::in_ranges(p), p.body.keys, number, down, reply.len()) {
        Err(check) => nothing_taken(p, Answer::CallRefused(check), 0),
        Ok(()) => {
            let n = number as u8;
            p.body.keys = after_event(p.body.keys, n, down);
            let mask = mask_for(p.body.live.masks, down);
            let written = report(mask, n, down, reply);
            nothing_taken(p, Answer::Done(0), written)
        }
    }
}
