// Numbers of four bytes, little end first.
ghost use Rattle.shapes.specs.Words.{ReadsWord, WritesWord};

// How many bytes a number has.
pub const WORD: usize = 4;

// The number that four bytes are.
pub fn word_of(a: u8, b: u8, c: u8, d: u8) -> u32
    ensures { ReadsWord a b c d result }
{
    u32::from_le_bytes([a, b, c, d])
}

// The four bytes of a number.
pub fn word_bytes(n: u32) -> [u8; WORD]
    ensures { WritesWord n result }
{
    n.to_le_bytes()
}
