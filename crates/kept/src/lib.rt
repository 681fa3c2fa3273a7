// What a program keeps from call to call besides the bytes that it lends.
#![tactic(auto)]

ghost use Rattle.kept.specs.Session.{StartsSession, Goes, PieceCame, CallMade};

use tally::{CallTold, REFUSED, Sums, WAITING};

// Which bytes of the piece no call has taken yet; whether no more calls are made, and whether a failed read or lost output is
// why; the last call and the sums of all.
#[derive(Clone, Copy, Default)]
pub struct Session {
    pub at: usize,
    pub end: usize,
    // Kept: `PieceCame` and `CallMade` say each of the three by itself: a failed read of some bytes is not over, and a call leaves `failed`.
    pub over: bool,
    pub failed: bool,
    pub lost: bool,
    pub call: CallTold,
    pub sums: Sums,
}

// Before the first call: nothing is taken, and a piece is waited for.
pub fn started() -> Session
    ensures { StartsSession result }
{
    let call = CallTold {
        number: WAITING,
        ..CallTold::default()
    };
    Session {
        call,
        ..Session::default()
    }
}

// Whether a step more is to be made after so many: a proved loop has to end, and nothing says that the input does, so that it
// ends too where no more steps can be counted.
pub fn going(steps: u64, over: bool) -> bool
    ensures { Goes steps over result }
{
    (steps < u64::MAX) & !over
}

// A piece of so many bytes to call on; none is the end of the input, or a failed read.
pub fn with_piece(s: Session, count: usize, failed: bool) -> Session
    ensures { PieceCame s count failed result }
{
    Session {
        at: 0,
        end: count,
        over: count == 0,
        failed,
        ..s
    }
}

// A call more on the bytes from `at` on, before which so many were held: what it took of the piece is taken.
pub fn with_call(s: Session, at: usize, held: u64, call: CallTold) -> Session
    ensures { CallMade s at held call result }
{
    Session {
        at: at.saturating_add(call.taken as usize),
        over: REFUSED <= call.number,
        call,
        sums: tally::with_call(s.sums, held, call),
        ..s
    }
}
