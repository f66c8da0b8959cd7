// The commands on one end of the link: their words, their fields, what they do and what they print.
// A later input goes last among its command's fields, and is 0 where it is absent. A later output goes last in print, behind the frame.
use crate::lent::{UNSENT, part_of, renew};
use crate::{ARROW, LINE_FEED, flag};
use arrayvec::ArrayVec;
use base::buffer::part;
use state::{Link, Outcome, Settings};
use std::io;
use std::io::Write;
use text::fields::Fields;
use text::page::Hex;
use text::settings;

// The longest slot buffer, and the longest frame buffer.
const BUFFER: usize = 4096;

#[derive(Clone, Copy)]
pub enum Call<'a> {
    Start(Settings),
    Submit { ms: u32, packet: &'a [u8] },
    Take { ms: u32, frame: &'a [u8] },
    Look { ms: u32 },
    Acknowledge { ms: u32 },
    Resynchronise { ms: u32 },
}

#[derive(Clone, Copy)]
pub enum Command<'a> {
    Call(Call<'a>),
    Lend { slots: usize, frame: usize },
    State(Link),
}

// ---- words and fields

// D WIN TRANS ACK REP [ORDER]
fn start<'a>(fields: &mut Fields<'_>) -> Option<Call<'a>> {
    let mut s = settings::read(fields)?;
    s.format.order = fields.number_or_0()?;
    Some(Call::Start(s))
}

// MS PACKET, MS FRAME
fn timed<'a>(fields: &mut Fields<'_>, room: &'a mut [u8]) -> Option<(u32, &'a [u8])> {
    let ms = fields.number()?;
    let bytes = fields.bytes(room)?;
    Some((ms, bytes))
}

// Of the others MS
fn read_call<'a>(word: &[u8], fields: &mut Fields<'_>, room: &'a mut [u8]) -> Option<Call<'a>> {
    match word {
        b"start" => start(fields),
        b"submit" => {
            let (ms, packet) = timed(fields, room)?;
            Some(Call::Submit { ms, packet })
        }
        b"take" => {
            let (ms, frame) = timed(fields, room)?;
            Some(Call::Take { ms, frame })
        }
        b"look" => Some(Call::Look {
            ms: fields.number()?,
        }),
        b"acknowledge" => Some(Call::Acknowledge {
            ms: fields.number()?,
        }),
        b"resynchronise" => Some(Call::Resynchronise {
            ms: fields.number()?,
        }),
        _ => None,
    }
}

// SLOTS FRAME
fn lend<'a>(fields: &mut Fields<'_>) -> Option<Command<'a>> {
    let slots = fields.number_up_to(BUFFER)?;
    let frame = fields.number_up_to(BUFFER)?;
    Some(Command::Lend { slots, frame })
}

// D WIN TRANS ACK REP NEXT EXPECTED WAITING LEN0 LEN1 START0 START1 REPEATED0 REPEATED1 ACKING ACKSTART NAKED LOST [ORDER]
fn state<'a>(fields: &mut Fields<'_>) -> Option<Command<'a>> {
    let mut l = state::zero_state();
    l.settings = settings::read(fields)?;
    l.next = fields.number()?;
    l.expected = fields.number()?;
    l.waiting = fields.number()?;
    l.lengths = [fields.number()?, fields.number()?];
    l.starts = [fields.number()?, fields.number()?];
    l.repeated = [fields.number()?, fields.number()?];
    l.acking = flag(fields)?;
    l.ackstart = fields.number()?;
    l.nakmark = flag(fields)?;
    l.lost = flag(fields)?;
    l.settings.format.order = fields.number_or_0()?;
    Some(Command::State(l))
}

// What the word and the fields behind it ask for, if it is one of these.
pub fn read<'a>(word: &[u8], fields: &mut Fields<'_>, room: &'a mut [u8]) -> Option<Command<'a>> {
    match word {
        b"lend" => lend(fields),
        b"state" => state(fields),
        _ => Some(Command::Call(read_call(word, fields, room)?)),
    }
}

impl Command<'_> {
    // What stands behind its line where it is printed again.
    pub fn behind(&self) -> &'static [u8] {
        match self {
            Command::Call(_) => ARROW,
            _ => LINE_FEED,
        }
    }
}

// ---- what a call prints

fn write_settings(to: &mut impl Write, s: Settings) -> io::Result<()> {
    write!(to, " {} {}", s.format.d, s.window)?;
    write!(to, " {} {} {}", s.transtimeout, s.acktimeout, s.repeats)
}

fn write_packets(to: &mut impl Write, l: Link) -> io::Result<()> {
    let [length0, length1] = l.lengths;
    let [start0, start1] = l.starts;
    let [repeated0, repeated1] = l.repeated;
    write!(to, " {} {} {}", l.next, l.expected, l.waiting)?;
    write!(to, " {length0} {length1} {start0} {start1}")?;
    write!(to, " {repeated0} {repeated1}")
}

fn write_marks(to: &mut impl Write, l: Link) -> io::Result<()> {
    write!(to, " {} {}", u8::from(l.acking), l.ackstart)?;
    write!(to, " {} {}", u8::from(l.nakmark), u8::from(l.lost))
}

// All that a call leaves.
fn write_all(to: &mut impl Write, o: Outcome, slots: &[u8], frame: &[u8]) -> io::Result<()> {
    let l = o.state;
    write!(to, "{} {} {} {}", o.answer, o.sent, o.delivered, o.dropped)?;
    write_settings(to, l.settings)?;
    write_packets(to, l)?;
    write_marks(to, l)?;
    writeln!(
        to,
        " {} {} {}",
        Hex(slots),
        Hex(frame),
        l.settings.format.order
    )
}

// The delivered packet is the received frame's bytes from byte 3 on.
fn write_worked(to: &mut impl Write, o: Outcome, received: &[u8], frame: &[u8]) -> io::Result<()> {
    let sent = Hex(part(frame, 0, usize::from(o.sent)));
    let delivered = Hex(part(received, 3, usize::from(o.delivered)));
    writeln!(to, "{} {sent} {delivered} {}", o.answer, o.dropped)
}

// ---- the end

// What take was handed.
fn received(c: Call<'_>) -> &[u8] {
    match c {
        Call::Take { frame, .. } => frame,
        _ => &[],
    }
}

// frame: how many bytes of a frame buffer are lent to a call.
#[derive(Drop)]
pub struct End {
    link: Link,
    slots: ArrayVec<u8, BUFFER>,
    frame: usize,
}

impl End {
    // Before the first line.
    pub fn new() -> Self {
        End {
            link: state::zero_state(),
            slots: ArrayVec::new(),
            frame: 0,
        }
    }

    fn make(&mut self, c: Call<'_>, frame: &mut [u8]) -> Outcome {
        let l = self.link;
        let slots = self.slots.as_mut_slice();
        match c {
            Call::Start(settings) => link::start(settings, slots),
            Call::Submit { ms, packet } => link::submit(l, slots, frame, ms, packet),
            Call::Take { ms, frame: taken } => link::take(l, slots, frame, ms, taken),
            Call::Look { ms } => link::look(l, slots, frame, ms).outcome,
            Call::Acknowledge { ms } => link::acknowledge(l, slots, frame, ms),
            Call::Resynchronise { ms } => link::resynchronise(l, slots, frame, ms),
        }
    }

    fn call(&mut self, to: &mut impl Write, c: Call<'_>, is_worked: bool) -> io::Result<()> {
        let mut room = [UNSENT; BUFFER];
        let frame = part_of(&mut room, self.frame);
        let o = self.make(c, frame);
        self.link = o.state;
        if is_worked {
            return write_worked(to, o, received(c), frame);
        }
        write_all(to, o, self.slots.as_slice(), frame)
    }

    pub fn obey(&mut self, to: &mut impl Write, c: Command<'_>, is_worked: bool) -> io::Result<()> {
        match c {
            Command::Call(call) => self.call(to, call, is_worked),
            Command::Lend { slots, frame } => {
                renew(&mut self.slots, slots);
                self.frame = frame;
                Ok(())
            }
            Command::State(link) => {
                self.link = link;
                Ok(())
            }
        }
    }
}
