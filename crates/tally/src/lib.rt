// What is added up from call to call, in sums that stop at the largest number.
#![tactic(auto)]

ghost use Rattle.std.specs.Prelude.{◌≡◌};
ghost use Rattle.tally.specs.Sums.{packets_by, SumsCall};

// The number of the answer waiting, and the first that refuses a call.
pub const WAITING: u8 = 1;

pub const REFUSED: u8 = 10;

// What a call says: the numbers of its answer, its counts, its reply's length and how many cells it lists.
#[derive(Clone, Copy, Default)]
pub struct CallTold {
    // Kept: any number that the byte of C's 16 has, which `call_of` of saidreads reads.
    pub number: u8,
    pub command: u8,
    pub reason: u8,
    pub place: u8,
    pub taken: u64,
    pub dropped: u64,
    pub checked: u64,
    pub reply: usize,
    pub listed: usize,
}

// How many packets were found; where the last one began, from the first byte of the input; the bytes taken, dropped and run
// through the checksum.
#[derive(Clone, Copy, Default)]
pub struct Sums {
    pub events: u64,
    pub offset: u64,
    pub taken: u64,
    pub dropped: u64,
    pub checked: u64,
}

// How many packets an answer of that number is of.
fn packets(number: u8) -> u64
    ensures { result ≡ packets_by number }
{
    u64::from((WAITING < number) & (number < REFUSED))
}

// The sums with a call more, before which so many bytes were held. A packet begins at the first byte that was still held, and
// then behind what the call dropped before it.
pub fn with_call(s: Sums, held: u64, c: CallTold) -> Sums
    ensures { SumsCall s held c result }
{
    Sums {
        events: s.events.saturating_add(packets(c.number)),
        offset: s.taken.saturating_sub(held).saturating_add(c.dropped),
        taken: s.taken.saturating_add(c.taken),
        dropped: s.dropped.saturating_add(c.dropped),
        checked: s.checked.saturating_add(c.checked),
    }
}
