// What is told on standard error of what failed. Where that cannot be written, nobody can be told.
use std::io;

// The system's words for an error, without its number.
fn reason(text: &str) -> &str {
    match text.split_once(" (os error ") {
        Some((words, _)) => words,
        None => text,
    }
}

// What failed, a colon and why.
pub fn fail<R: Eprint + AllocGlobal>(rt: &R, what: &str, why: io::Error) {
    let _ = match why.to_string(rt.alloc()) {
        Ok(text) => {
            let words = reason(&text);
            eprintln!(rt; "{what}: {words}")
        }
        Err(_) => eprintln!(rt; "{what}: {why}"),
    };
}
