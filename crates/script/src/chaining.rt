// The commands on one joining of messages: their words, their fields, what they do and what they print.
// A later input goes last among its command's fields, and is 0 where it is absent. A later output goes last in its command's print
// function.
use crate::lent::{UNSENT, part_of, renew};
use crate::{ARROW, LINE_FEED, flag};
use arrayvec::ArrayVec;
use base::buffer::part;
use chain::{Joined, Joining, Piece};
use std::io;
use std::io::Write;
use text::fields::Fields;
use text::page::Hex;

// The longest joining room.
const ROOM: usize = 8192;

// The longest packet buffer of cut.
const PACKET: usize = 1024;

#[derive(Clone, Copy)]
pub enum Command<'a> {
    Join {
        m: u16,
        packet: &'a [u8],
    },
    Cut {
        m: u16,
        i: u32,
        size: usize,
        message: &'a [u8],
    },
    Room(usize),
    Joining(Joining),
}

// ---- words and fields

// M PACKET
fn join<'a>(fields: &mut Fields<'_>, room: &'a mut [u8]) -> Option<Command<'a>> {
    let m = fields.number()?;
    let packet = fields.bytes(room)?;
    Some(Command::Join { m, packet })
}

// M I BUFFER MESSAGE
fn cut<'a>(fields: &mut Fields<'_>, room: &'a mut [u8]) -> Option<Command<'a>> {
    let m = fields.number()?;
    let i = fields.number()?;
    let size = fields.number_up_to(PACKET)?;
    let message = fields.bytes(room)?;
    Some(Command::Cut {
        m,
        i,
        size,
        message,
    })
}

// OPEN JOINED
fn joining<'a>(fields: &mut Fields<'_>) -> Option<Command<'a>> {
    let opened = flag(fields)?;
    let length = fields.number()?;
    Some(Command::Joining(Joining { length, opened }))
}

// What the word and the fields behind it ask for, if it is one of these.
pub fn read<'a>(word: &[u8], fields: &mut Fields<'_>, room: &'a mut [u8]) -> Option<Command<'a>> {
    match word {
        b"join" => join(fields, room),
        b"cut" => cut(fields, room),
        b"room" => Some(Command::Room(fields.number_up_to(ROOM)?)),
        b"joining" => joining(fields),
        _ => None,
    }
}

impl Command<'_> {
    // What stands behind its line where it is printed again.
    pub fn behind(&self) -> &'static [u8] {
        match self {
            Command::Join { .. } | Command::Cut { .. } => ARROW,
            _ => LINE_FEED,
        }
    }
}

// ---- what a call prints

// Of a worked line the room is not told.
fn write_joined(to: &mut impl Write, j: Joined, room: &[u8], is_worked: bool) -> io::Result<()> {
    write!(to, "{} {} {}", j.answer, j.length, j.fault)?;
    write!(to, " {} {}", u8::from(j.state.opened), j.state.length)?;
    if is_worked {
        return writeln!(to);
    }
    writeln!(to, " {}", Hex(room))
}

// Of a worked line the packet is told, else the whole buffer.
fn write_piece(to: &mut impl Write, p: Piece, packet: &[u8], is_worked: bool) -> io::Result<()> {
    let told = if is_worked {
        part(packet, 0, usize::from(p.length))
    } else {
        packet
    };
    writeln!(to, "{} {} {} {}", p.answer, p.length, p.count, Hex(told))
}

// ---- the joining

#[derive(Drop)]
pub struct Joint {
    joining: Joining,
    room: ArrayVec<u8, ROOM>,
}

impl Joint {
    // Before the first line.
    pub fn new() -> Self {
        Joint {
            joining: chain::fresh_joining(),
            room: ArrayVec::new(),
        }
    }

    fn join(
        &mut self,
        to: &mut impl Write,
        m: u16,
        packet: &[u8],
        is_worked: bool,
    ) -> io::Result<()> {
        let j = chain::join(m, self.joining, packet, self.room.as_mut_slice());
        self.joining = j.state;
        write_joined(to, j, self.room.as_slice(), is_worked)
    }

    pub fn obey(&mut self, to: &mut impl Write, c: Command<'_>, is_worked: bool) -> io::Result<()> {
        match c {
            Command::Join { m, packet } => self.join(to, m, packet, is_worked),
            Command::Cut {
                m,
                i,
                size,
                message,
            } => {
                let mut room = [UNSENT; PACKET];
                let packet = part_of(&mut room, size);
                let p = chain::cut(m, message, i, packet);
                write_piece(to, p, packet, is_worked)
            }
            Command::Room(size) => {
                renew(&mut self.room, size);
                Ok(())
            }
            Command::Joining(joining) => {
                self.joining = joining;
                Ok(())
            }
        }
    }
}
