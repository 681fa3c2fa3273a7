// The sizes of what a program lends to a call.
pub const PIECE: usize = listen::PIECE;

pub const STATE: usize = statebytes::places::SIZE;

pub const PICTURE: usize = picture::repaint::PICTURE;

pub const FONT: usize = picture::repaint::FONT;

pub const LIST: usize = picture::repaint::LIST;

pub const REPLY: usize = packets::REPLY;

pub const FAULTS: usize = registerbytes::REGISTER;

pub const SAID: usize = saidbytes::SAID;
