// The commands of worked lines only, on a frame's bytes: their words, their fields, what they do and what they print.
use base::answer;
use frame::{Format, Heard};
use std::io;
use std::io::Write;
use text::fields::Fields;
use text::heard;

#[derive(Clone, Copy)]
pub enum Command<'a> {
    Checksum(&'a [u8]),
    Hear { format: Format, frame: &'a [u8] },
}

// D BYTES [ORDER]
fn hear<'a>(fields: &mut Fields<'_>, room: &'a mut [u8]) -> Option<Command<'a>> {
    let d = fields.number()?;
    let frame = fields.bytes(room)?;
    let order = fields.number_or_0()?;
    Some(Command::Hear {
        format: Format { d, order },
        frame,
    })
}

// BYTES
fn checksum<'a>(fields: &mut Fields<'_>, room: &'a mut [u8]) -> Option<Command<'a>> {
    Some(Command::Checksum(fields.bytes(room)?))
}

// What the word and the fields behind it ask for, if it is one of these.
pub fn read<'a>(word: &[u8], fields: &mut Fields<'_>, room: &'a mut [u8]) -> Option<Command<'a>> {
    match word {
        b"checksum" => checksum(fields, room),
        b"hear" => hear(fields, room),
        _ => None,
    }
}

fn write_heard(to: &mut impl Write, h: Heard) -> io::Result<()> {
    let answer = answer::told(frame::refusal(h));
    write!(to, "{answer} {}", heard::Name(h))?;
    match h {
        Heard::Data { length, .. } => writeln!(to, ", {length} bytes"),
        _ => writeln!(to),
    }
}

// Does what the command says.
pub fn obey(to: &mut impl Write, c: Command<'_>) -> io::Result<()> {
    match c {
        Command::Checksum(bytes) => writeln!(to, "{:04X}", fcs::checksum(bytes)),
        Command::Hear { format, frame } => write_heard(to, frame::hear(format, frame)),
    }
}
