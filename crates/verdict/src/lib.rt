// Why a packet is refused: the verdict on a command and its data bytes, the first reason that applies with its place, or none.
// It stands apart from carrying a command out, since whoever composes commands asks it too.
#![tactic(auto)]

ghost use Rattle.std.specs.Prelude.{◌≡◌, ◌<◌, ◌≤◌, length, Ok, MatchOption};
ghost use Rattle.verdict.specs.Verdict.{in_range, first_out, is_reboot, whole_verdict, GivesNumber, refused, Rules};

use table::Rule;

// The reasons, in the order in which they are looked for.
#[derive(Clone, Copy, PartialEq, Eq)]
pub enum Reason {
    UnknownCommand = 1,
    LengthNotAllowed = 2,
    DataOutOfRange = 3,
    PastColumn19 = 4,
    NotTheReboot = 5,
}

impl From<Reason> for u8 {
    ghost from_gives = { GivesNumber };

    fn from(reason: Reason) -> u8 {
        reason as u8
    }
}

// Why a packet is refused: the reason, and the place that it names.
#[derive(Clone, Copy, PartialEq, Eq)]
pub struct Objection {
    pub reason: Reason,
    pub place: u8,
}

// Whether the data byte at an index is in its range.
#[tactic(auto, using(lists::proofs::Laws::when_true, lists::proofs::Laws::when_false), unfolding(crate::specs::Verdict::in_range))]
fn in_range(rule: Rule, content: &[u8], i: usize) -> bool
    requires { i < length content.now }
    ensures { result ≡ in_range rule content.now i }
{
    let b = content[i];
    match (rule, i) {
        (Rule::Free, _) => true,
        (Rule::UpTo(most), _) => b <= most,
        (Rule::Glyph, 0) => b <= 7,
        (Rule::Glyph, _) => b <= 63,
        (Rule::Address, _) => matches!(b, 64..=120) || 128 <= b && b % 32 <= 12,
        (Rule::Place, 0) => b <= 19,
        (Rule::Place, 1) => b <= 3,
        (Rule::Place, _) => true,
        (Rule::Reboot, _) => true,
        (Rule::Pin, 0) => b <= 12,
        (Rule::Pin, 1) => b <= 100,
        (Rule::Pin, _) => content[0] <= 4 && table::config_allowed(b),
    }
}

// The index of the first data byte out of its range, if one is.
fn first_out(rule: Rule, content: &[u8]) -> Option<usize>
    ensures { MatchOption result (length content.now ≡ first_out rule content.now) (λ i. (i ≡ first_out rule content.now) × (i < length content.now)) }
{
    (0..content.len()).find(|i| !in_range(rule, content, *i))
}

fn refused(reason: Reason, place: u8) -> Result<(), Objection>
    ensures { result ≡ refused reason place }
{
    Err(Objection { reason, place })
}

// The first character of the text that passes column 19 is refused.
// Kept: no type of std's is a slice of at most 22 bytes, so that the two functions on one ask for it.
#[tactic(auto, using(lists::proofs::Laws::when_true, lists::proofs::Laws::when_false), unfolding(crate::specs::Verdict::whole_verdict))]
fn past_column_19(content: &[u8]) -> Result<(), Objection>
    requires { length content.now ≤ 22 }
    ensures { result ≡ whole_verdict Rule.Place content.now }
{
    let column = lists::at(content, 0);
    let text = content.len().saturating_sub(2);
    if 20 < usize::from(column) + text {
        return refused(Reason::PastColumn19, 24u8.saturating_sub(column));
    }
    Ok(())
}

#[tactic(auto, unfolding(crate::specs::Verdict::is_reboot))]
fn is_reboot(content: &[u8]) -> bool
    ensures { result ≡ is_reboot content.now }
{
    matches!(content, [8, 18, 99])
}

// Reasons 4 and 5, which look at the data bytes together.
#[tactic(auto, using(lists::proofs::Laws::when_true, lists::proofs::Laws::when_false), unfolding(crate::specs::Verdict::whole_verdict))]
fn whole(rule: Rule, content: &[u8]) -> Result<(), Objection>
    requires { length content.now ≤ 22 }
    ensures { result ≡ whole_verdict rule content.now }
{
    match rule {
        Rule::Place => past_column_19(content),
        Rule::Reboot if !is_reboot(content) => refused(Reason::NotTheReboot, 2),
        _ => Ok(()),
    }
}

#[tactic(auto, using(lists::proofs::Laws::when_true, lists::proofs::Laws::when_false, table::proofs::Rows::longest_22), unfolding(crate::specs::Verdict::verdict_by))]
pub fn verdict_on(code: u8, content: &[u8]) -> Result<(), Objection>
    ensures { Rules code content.now result }
{
    let row = table::look(code).ok_or(Objection {
        reason: Reason::UnknownCommand,
        place: 0,
    })?;
    let n = content.len();
    if n < row.shortest || row.longest < n {
        return refused(Reason::LengthNotAllowed, 1);
    }
    if let Some(i) = first_out(row.rule, content) {
        return refused(Reason::DataOutOfRange, (2 + i) as u8);
    }
    whole(row.rule, content)
}
