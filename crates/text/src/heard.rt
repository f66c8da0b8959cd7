// The name of a frame, as an end hears it.
use frame::{Format, Heard};
use std::fmt;
use std::fmt::Formatter;

// What was heard: `data 0 ack 3`, `ack 0`, `nak 0`, `reset`, or which of steps 1 to 4 refuses.
#[derive(Clone, Copy)]
pub struct Name(pub Heard);

impl fmt::Display for Name {
    fn fmt<W: fmt::Write>(&self, f: &mut Formatter<W>) -> fmt::Result {
        match self.0 {
            Heard::Size => f.write_str("size"),
            Heard::Sum => f.write_str("checksum"),
            Heard::Code => f.write_str("code"),
            Heard::ControlSize => f.write_str("control"),
            Heard::Length => f.write_str("length"),
            Heard::Reset => f.write_str("reset"),
            Heard::Ack(number) => write!(f, "ack {number}"),
            Heard::Nak(number) => write!(f, "nak {number}"),
            Heard::Data {
                number,
                nak,
                acknowledged,
                ..
            } => {
                let answer = if nak { "nak" } else { "ack" };
                write!(f, "data {number} {answer} {acknowledged}")
            }
        }
    }
}

// What an end with that format hears in the frame: `noise` where step 1 refuses it; where a later step does, its size and its checksum are
// right: `a wrong frame`.
#[derive(Clone, Copy)]
pub struct Frame<'a>(pub Format, pub &'a [u8]);

impl fmt::Display for Frame<'_> {
    fn fmt<W: fmt::Write>(&self, f: &mut Formatter<W>) -> fmt::Result {
        let size = self.1.len();
        match frame::hear(self.0, self.1) {
            Heard::Size | Heard::Sum => write!(f, "noise ({size} bytes)"),
            Heard::Code | Heard::ControlSize | Heard::Length => {
                write!(f, "a wrong frame ({size} bytes)")
            }
            heard => write!(f, "{}", Name(heard)),
        }
    }
}
