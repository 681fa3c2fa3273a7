// A recording as it is written: its start, the header of an entry, and how much room an entry has.
#![tactic(auto)]

ghost use Rattle.recorder.specs.Written.{StartsRecording, HeadsEntry, RoomBehind};

use recordings::{ENTRIES, HEADER, LONGEST};

// The mark and the version.
pub fn start() -> [u8; ENTRIES]
    ensures { StartsRecording result }
{
    *b"PLR\x01\x00"
}

// The header of an entry of so many bytes.
pub fn header(direction: u8, n: usize) -> [u8; HEADER]
    ensures { HeadsEntry direction n result }
{
    let [low, high, ..] = n.to_le_bytes();
    [direction, low, high]
}

// How many bytes an entry may have behind those that a recording has; 0 where it may have none.
pub fn room(size: usize) -> usize
    ensures { RoomBehind size result }
{
    (LONGEST - HEADER).saturating_sub(size)
}
