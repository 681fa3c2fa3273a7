// The line's part of a call: its checks, the scan, what a packet is answered, and the error reply. It knows no body.
#![tactic(auto)]

ghost use Rattle.std.specs.Prelude.{◌≡◌};
ghost use Rattle.listen.specs.Reply.{AnswersTo, RepliesRefused};
ghost use Rattle.listen.specs.Listen.{answer_in, ChecksLine, HearsPiece};

use answers::{Answer, Check, also};
use filing::RECORDS;
use framing::Counts;
use packets::{CONTENT, Packet, REPLY};
use panel::Line;
use picture::repaint::{FONT, LIST, PICTURE};

// The longest piece.
pub const PIECE: usize = 4096;

// The sizes of what is lent for the picture and the register; the piece and the reply buffer are lent to `hear`.
#[derive(Clone, Copy)]
pub struct Sizes {
    pub picture: usize,
    pub font: usize,
    pub list: usize,
    pub records: usize,
}

// What stands for the packet of a call that found none.
const NO_PACKET: Packet = Packet {
    kind: 0,
    length: 0,
    content: [0u8; CONTENT],
};

// The line's part after a call, its answer, the packet that it found, its counts and the error reply's length.
#[derive(Clone, Copy)]
pub struct Heard {
    pub line: Line,
    pub answer: Answer,
    pub packet: Packet,
    pub counts: Counts,
    pub reply: usize,
}

// A stray, a done command or a refusal: the panel's state has no part in it.
#[tactic(auto, using(lists::proofs::Laws::when_true, lists::proofs::Laws::when_false), unfolding(crate::specs::Reply::answer_to))]
fn answer_to(p: Packet) -> Answer
    ensures { AnswersTo p result }
{
    let code = p.kind;
    if 64 <= code {
        return Answer::Stray(code % 64);
    }
    let n = p.length.min(CONTENT);
    match verdict::verdict_on(code, &p.content[..n]) {
        Ok(()) => Answer::Done(code),
        Err(o) => Answer::Refused(code, o.reason, o.place),
    }
}

// The error reply of a refused packet at the front of the buffer, and its length; to other answers nothing is replied here.
#[tactic(auto, using(lists::proofs::Laws::when_true, lists::proofs::Laws::when_false), unfolding(crate::specs::Reply::refused_length, crate::specs::Reply::refused_reply, answers::specs::Answer::numbers_of))]
fn refuse(answer: Answer, reply: &mut [u8]) -> usize
    ensures { RepliesRefused answer reply.old result reply.new }
{
    match answer {
        Answer::Refused(code, _, _) => packets::compose(reply, 192 + code % 64, &[]),
        _ => 0,
    }
}

// The checks of a line call, in the order of their numbers.
pub fn checked(in_ranges: bool, piece: usize, sizes: Sizes, reply: usize) -> Result<(), Check>
    ensures { ChecksLine in_ranges piece sizes reply result }
{
    let state = also(Ok(()), in_ranges, Check::StateRange);
    let pieces = also(state, piece <= PIECE, Check::PieceSize);
    let picture = also(pieces, sizes.picture == PICTURE, Check::PictureSize);
    let font = also(picture, sizes.font == FONT, Check::FontSize);
    let list = also(font, sizes.list == LIST, Check::ListSize);
    let replies = also(list, reply == REPLY, Check::ReplySize);
    also(replies, sizes.records == RECORDS, Check::RegisterSize)
}

// What a scan found: the packet's answer, or waiting.
#[tactic(auto, unfolding(crate::specs::Listen::answer_in))]
fn answer_in(packet: Option<Packet>) -> Answer
    ensures { result ≡ answer_in packet }
{
    match packet {
        Some(p) => answer_to(p),
        None => Answer::Waiting,
    }
}

// A piece of the line once its checks have passed; a refused packet gets its error reply.
pub fn hear(line: Line, piece: &[u8], reply: &mut [u8]) -> Heard
    ensures { HearsPiece line piece.now reply.old result reply.new }
{
    let s = framing::scan(line.hold, piece);
    let answer = answer_in(s.packet);
    let written = refuse(answer, reply);
    Heard {
        line: Line {
            hold: s.hold,
            ..line
        },
        answer,
        packet: s.packet.unwrap_or(NO_PACKET),
        counts: s.counts,
        reply: written,
    }
}
