// What a call says.
#![tactic(auto)]

ghost use Rattle.std.specs.Prelude.{◌≡◌};
ghost use Rattle.answers.specs.Answer.{NumbersCheck, Tells, Hands, TakesNothing};
ghost use Rattle.answers.specs.Checks.{Checks};

use filing::Refusal;
use framing::Counts;
use panel::Panel;
use verdict::Reason;

// The checks of the calls, in the order of their numbers.
#[derive(Clone, Copy)]
pub enum Check {
    StateRange = 10,
    PieceSize = 11,
    PictureSize = 12,
    FontSize = 13,
    ListSize = 14,
    ReplySize = 15,
    RegisterSize = 16,
    KeyOrPin = 17,
    KeyAsTold = 18,
    GlyphNumber = 27,
}

// A stray, a done command and a refused packet carry the command, a refused packet its reason and place too; a call that is
// refused by number carries the check that failed.
// Kept: the three parts of a refusal stand by themselves, as `refused_changes_only` and the definitions of a call speak of them.
#[derive(Clone, Copy)]
pub enum Answer {
    Waiting,
    Stray(u8),
    Done(u8),
    Refused(u8, Reason, u8),
    CallRefused(Check),
}

// "all counts 0"
pub const NO_COUNTS: Counts = Counts {
    taken: 0,
    dropped: 0,
    checked: 0,
};

// The panel after a call, its answer and counts, the reply's length and how many cells were listed.
#[derive(Clone, Copy)]
pub struct Said {
    pub panel: Panel,
    pub answer: Answer,
    pub counts: Counts,
    pub reply: usize,
    pub listed: usize,
}

// An answer in the paper's numbers, 0 for what it does not have.
// Kept: these are the numbers that C is told (`Tells`).
#[derive(Clone, Copy)]
pub struct Numbers {
    pub number: u8,
    pub command: u8,
    pub reason: u8,
    pub place: u8,
}

// One check more, which counts where those before it pass.
#[tactic(auto, unfolding(crate::specs::Checks::also_checked))]
pub fn also(c: Result<(), Check>, passes: bool, check: Check) -> Result<(), Check>
    ensures { Checks c passes check result }
{
    c?;
    if passes { Ok(()) } else { Err(check) }
}

fn numbered(number: u8, command: u8) -> Numbers
    ensures { result ≡ record { number = number; command = command; reason = 0; place = 0 } }
{
    Numbers {
        number,
        command,
        reason: 0,
        place: 0,
    }
}

// The number that a call refused by a check answers.
impl From<Check> for u8 {
    ghost from_gives = { NumbersCheck };

    #[tactic(auto, unfolding(crate::specs::Answer::check_number))]
    fn from(check: Check) -> u8 {
        check as u8
    }
}

#[tactic(auto, unfolding(crate::specs::Answer::numbers_of))]
pub fn told(answer: Answer) -> Numbers
    ensures { Tells answer result }
{
    match answer {
        Answer::Waiting => numbered(1, 0),
        Answer::Stray(command) => numbered(2, command),
        Answer::Done(command) => numbered(3, command),
        Answer::Refused(command, reason, place) => Numbers {
            number: 4,
            command,
            reason: u8::from(reason),
            place,
        },
        Answer::CallRefused(check) => numbered(u8::from(check), 0),
    }
}

// What is handed on for filing: the key of a refused packet, or nothing to file.
pub fn to_file(answer: Answer) -> Option<Refusal>
    ensures { Hands answer result }
{
    match answer {
        Answer::Refused(command, why, place) => Some(Refusal {
            command,
            reason: u8::from(why),
            place,
        }),
        _ => None,
    }
}

// A call that takes nothing of the line: all counts are 0, and no cell is listed.
pub fn nothing_taken(p: Panel, answer: Answer, reply: usize) -> Said
    ensures { TakesNothing p answer reply result }
{
    Said {
        panel: p,
        answer,
        counts: NO_COUNTS,
        reply,
        listed: 0,
    }
}
