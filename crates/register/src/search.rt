// The search for the record to file in: the first in use with the key, else the first free one.
ghost use Rattle.std.specs.Prelude.{◌≡◌, position};
ghost use Rattle.filing.specs.Filing.{is_free, is_with};
ghost use Rattle.register.specs.Run.{FindsSlot};
ghost use Rattle.filing.specs.declared.Refusal.{Refusal};

use filing::{Record, Refusal};

fn is_free(r: Record) -> bool
    ensures { result ≡ is_free r }
{
    r.count == 0
}

// The key of a record in use.
fn key_of(r: Record) -> Refusal
    ensures { result ≡ record { command = r.command; reason = r.reason; place = r.place } }
{
    Refusal {
        command: r.command,
        reason: r.reason,
        place: r.place,
    }
}

fn is_with(k: Refusal, r: Record) -> bool
    ensures { result ≡ is_with k r }
{
    !is_free(r) && key_of(r) == k
}

fn first_with(register: &[Record], k: Refusal) -> Option<usize>
    ensures { result ≡ position (is_with k) register.now }
{
    register.iter().position(|r| is_with(k, *r))
}

fn first_free(register: &[Record]) -> Option<usize>
    ensures { result ≡ position is_free register.now }
{
    register.iter().position(|r| is_free(*r))
}

// The record to file in, where there is one.
pub fn find(register: &[Record], k: Refusal) -> Option<usize>
    ensures { FindsSlot register.now k result }
{
    let known = first_with(register, k);
    known.or_else(|| first_free(register))
}
