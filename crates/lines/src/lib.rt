// The lines that the line program writes, each put together in a lent buffer.
#![tactic(auto)]

ghost use Rattle.std.specs.Prelude.{◌≡◌, ◌≤◌, length};
ghost use Rattle.lines.specs.Lines.{event_form, Events, Ends};

use tally::{CallTold, Sums};
use wording::filled;

// The form of a packet's line, with the word of its answer.
// Kept: 2 is stray, 3 done and 4 refused, which are C's numbers, read from bytes (`event_form`).
fn form(kind: u8) -> &'static [u8]
    ensures { result.now ≡ event_form kind }
{
    match kind {
        2 => b"% % stray % % % %\n",
        3 => b"% % done % % % %\n",
        _ => b"% % refused % % % %\n",
    }
}

// The line of a packet, of that number and from that offset on, and its length.
// Kept: a buffer and a length, of which `Events` and `event_determined` speak; `end` is as this.
pub fn event(out: &mut [u8], packet: u64, offset: u64, c: CallTold) -> usize
    ensures told { Events out.old packet offset c result out.new }
    ensures inside { result ≤ length out.new }
{
    let numbers = [
        packet,
        offset,
        u64::from(c.command),
        u64::from(c.reason),
        u64::from(c.place),
        c.listed as u64,
    ];
    filled(out, form(c.number), &numbers)
}

// The last line, with so many bytes still held, and its length.
pub fn end(out: &mut [u8], s: Sums, held: u64) -> usize
    ensures told { Ends out.old s held result out.new }
    ensures inside { result ≤ length out.new }
{
    let numbers = [s.taken, s.dropped, held, s.checked];
    filled(out, b"end % skipped % held % checked %\n", &numbers)
}
