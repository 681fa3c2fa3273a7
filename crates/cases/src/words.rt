// The words of a script.
use std::io::Stdout;

#[derive(Clone, Copy, PartialEq, Eq)]
pub enum Word {
    // A case begins, or a value or a code's rows are set, and nothing is printed.
    Heading,
    Set,
    Unfiled,
    Count,
    Font,
    // What is printed begins with another word.
    Line,
    Value,
    Faults,
    Cuts,
    // What is printed begins with the word itself.
    Press,
    Release,
    Lend,
    High,
    Low,
    Sizes,
    Power,
    State,
    Cell,
    Picture,
    Scan,
    Compose,
    Sum,
    Ask,
    Text,
    Read,
    Next,
    Cells,
    // A recording is put together, or a cell's byte in the sets is set, and nothing is printed.
    Tape,
    Fill,
    Mark,
}

fn named(name: &[u8]) -> Option<Word> {
    let word = match name {
        b"#" => Word::Heading,
        b"set" => Word::Set,
        b"unfiled" => Word::Unfiled,
        b"count" => Word::Count,
        b"font" => Word::Font,
        b"line" => Word::Line,
        b"value" => Word::Value,
        b"faults" => Word::Faults,
        b"cuts" => Word::Cuts,
        b"press" => Word::Press,
        b"release" => Word::Release,
        b"lend" => Word::Lend,
        b"high" => Word::High,
        b"low" => Word::Low,
        b"sizes" => Word::Sizes,
        b"power" => Word::Power,
        b"state" => Word::State,
        b"cell" => Word::Cell,
        b"picture" => Word::Picture,
        b"scan" => Word::Scan,
        b"compose" => Word::Compose,
        b"sum" => Word::Sum,
        b"ask" => Word::Ask,
        b"text" => Word::Text,
        b"read" => Word::Read,
        b"next" => Word::Next,
        b"cells" => Word::Cells,
        b"tape" => Word::Tape,
        b"fill" => Word::Fill,
        b"mark" => Word::Mark,
        _ => return None,
    };
    Some(word)
}

// Whether what is printed begins with the word itself.
fn begins(word: Word) -> bool {
    match word {
        Word::Heading | Word::Set | Word::Unfiled | Word::Count | Word::Font => false,
        Word::Line | Word::Value | Word::Faults | Word::Cuts => false,
        Word::Tape | Word::Fill | Word::Mark => false,
        _ => true,
    }
}

// The bytes before the mark, or all where there is none.
fn before(s: &[u8], mark: u8) -> &[u8] {
    match s.iter().position(|b| *b == mark) {
        Some(end) => &s[..end],
        None => s,
    }
}

// The word that a line begins with, up to a blank or a byte 0, after printing it where what is printed begins so.
pub fn read(stdout: Stdout, line: &[u8]) -> Option<Word> {
    let text = before(line, b' ');
    let word = named(before(text, 0))?;
    if begins(word) {
        crate::text::word(stdout, text);
    }
    Some(word)
}
