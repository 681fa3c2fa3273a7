// The checksum: the 16-bit FCS of RFC 1662, a byte at a time by the data sheet's table.
#![tactic(auto)]

ghost use Rattle.std.specs.Prelude.{◌≡◌};
ghost use Rattle.fcs.specs.Fcs.{after_byte, after_bytes, all_ones, Checksums};

mod words;

// All sixteen bits set: the start, and what inverts the end.
pub const ONES: u16 = 65535;

// A step by the table: the high byte moves down, and is xored with the word whose number is the low byte xored with the new one.
// Kept: the step by / and %, as `byte_step` (proofs/Steps.antt) says it; by >> and & it is no plainer.
fn byte(c: u16, b: u8) -> u16
    ensures { result ≡ after_byte c b }
{
    (c / 256) ^ words::word(((c ^ (b as u16)) % 256) as u8)
}

fn run(bytes: &[u8]) -> u16
    ensures { result ≡ after_bytes all_ones bytes.now }
{
    bytes.iter().fold(ONES, |c, b| byte(c, *b))
}

pub fn checksum(bytes: &[u8]) -> u16
    ensures { Checksums bytes.now result }
{
    !run(bytes)
}
