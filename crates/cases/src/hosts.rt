// Cases of the host's side. The word that a line begins with stands already.
use crate::text::{bytes, end, filled, hex, labelled, plain, word};
use crate::words::Word;
use hostreads::READING;
use packets::REPLY;
use saidbytes::SAID;
use std::io::Stdout;

// What a composer says, and its packet.
fn told(stdout: Stdout, said: &[u8; SAID], packet: &[u8; REPLY]) {
    filled(stdout, b" % % % %:", said);
    bytes(stdout, packet, 0, usize::from(said[12]), hex);
    end(stdout);
}

fn ask(stdout: Stdout, given: &[u8]) {
    let mut packet = [0u8; REPLY];
    let mut said = [0u8; SAID];
    if let [code, data @ ..] = given {
        host::naupelys_compose(u32::from(*code), data, &mut packet, &mut said);
    }
    told(stdout, &said, &packet);
}

fn text(stdout: Stdout, given: &[u8]) {
    let mut packet = [0u8; REPLY];
    let mut said = [0u8; SAID];
    if let [column, row, text @ ..] = given {
        hostscreen::naupelys_compose_text(*column, *row, text, &mut packet, &mut said);
    }
    told(stdout, &said, &packet);
}

// The number, and kind, command, how many values, and the values.
fn read(stdout: Stdout, given: &[u8]) {
    let mut out = [0u8; READING];
    let number = hostreads::naupelys_read_reply(given, &mut out);
    labelled(stdout, b" ", usize::from(number));
    word(stdout, b":");
    bytes(stdout, &out, 0, 3 + usize::from(out[2]), plain);
    end(stdout);
}

pub fn run(stdout: Stdout, name: Word, given: &[u8]) {
    match name {
        Word::Ask => ask(stdout, given),
        Word::Text => text(stdout, given),
        Word::Read => read(stdout, given),
        _ => {}
    }
}
