// Reading what a panel writes for a C caller: the call of include/naupelys_host.h over lent bytes.
#![tactic(auto)]

ghost use Rattle.std.specs.Prelude.{◌≡◌, ◌∷◌, ◌≤◌, length};
ghost use Rattle.packets.specs.Packet.{content_most, padded};
ghost use Rattle.hostreads.specs.Reads.{reading_size, reading_bytes, ReadBytes};

use reading::{Meaning, Reading};

// How many bytes a reading takes, and where its values begin.
pub const READING: usize = 26;

const VALUES: usize = 3;

// A reading that begins with these bytes, zeros behind them.
// Kept: no type of std's is a slice of at most 22 bytes.
fn laid(kind: u8, command: u8, count: u8, values: &[u8]) -> [u8; READING]
    requires { length values.now ≤ content_most }
    ensures { result ≡ padded reading_size (kind ∷ command ∷ count ∷ values.now) }
{
    let mut out = [0u8; READING];
    out[..VALUES].copy_from_slice(&[kind, command, count]);
    out[VALUES..VALUES + values.len()].copy_from_slice(values);
    out
}

// Kept: the kinds 1 to 3 are C's numbers, as are 3 and 29 below (`ReadBytes`).
#[tactic(auto, unfolding(crate::specs::Reads::reading_parts))]
fn reading_bytes(r: Reading) -> [u8; READING]
    requires { r.count ≤ content_most }
    ensures { result ≡ reading_bytes r }
{
    match r.meaning {
        Meaning::Reply(command) => laid(1, command, r.count as u8, &r.values),
        Meaning::ErrorReply(command) => laid(2, command, 0, &[]),
        Meaning::Report { number, down } => laid(3, 0, 2, &[number, u8::from(down)]),
    }
}

// What the bytes mean, where they are exactly one reply, error reply or report that a panel can write.
pub fn naupelys_read_reply(bytes: &[u8], out: &mut [u8; READING]) -> u8
    ensures { ReadBytes bytes.now result out.new }
{
    match reading::read(bytes) {
        Some(r) => {
            *out = reading_bytes(r);
            3
        }
        None => {
            *out = [0u8; READING];
            29
        }
    }
}
