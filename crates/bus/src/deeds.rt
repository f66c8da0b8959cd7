// A move of the ends, told in a line.
use crate::ending::Part;
use crate::reason::Answer;
use crate::story::Story;
use crate::words::{Does, The};
use ends::bytes::LONGEST;
use ends::hearing::Hearing;
use ends::moves::{Call, Event, Move};
use ends::{Ends, Side};
use std::fmt::Formatter;
use std::io::Write;
use std::{fmt, io};
use text::heard::Frame;
use text::page::Quoted;

// Frame n of those on their way to the end; both ends have the same settings.
fn nth_frame(ends: &Ends, to: Side, n: usize) -> Frame<'_> {
    let end = ends.pair.of(to);
    let bytes = match end.arriving().get(n) {
        Some(frame) => frame.as_slice(),
        None => &[],
    };
    Frame(end.link.settings.format, bytes)
}

// What came of a call.
#[derive(Clone, Copy)]
struct Came<'a>(Answer<'a>);

impl Came<'_> {
    fn tell_packets<W: fmt::Write>(&self, f: &mut Formatter<W>) -> fmt::Result {
        let event = self.0.event;
        if let Some(packet) = &event.delivered {
            write!(f, ", delivers {}", Quoted(packet.as_slice()))?;
        }
        if 0 < event.freed {
            write!(f, ", frees {}", event.freed)?;
        }
        if 0 < event.dropped {
            write!(f, ", drops {}, which may have arrived", event.dropped)?;
        }
        Ok(())
    }
}

impl fmt::Display for Came<'_> {
    fn fmt<W: fmt::Write>(&self, f: &mut Formatter<W>) -> fmt::Result {
        self.tell_packets(f)?;
        write!(f, "{}", self.0)?;
        let event = self.0.event;
        if let Some(frame) = &event.sent {
            let format = self.0.settings.format;
            write!(f, ", sends {}", Frame(format, frame.as_slice()))?;
        }
        if event.is_crowded {
            f.write_str(", which is lost: too many frames are on their way")?;
        }
        Ok(())
    }
}

impl<W: Write> Story<W> {
    // ---- before the move

    fn tell_call(&mut self, side: Side, call: Call, packet: &[u8]) -> io::Result<()> {
        let (to, ends) = (&mut self.to, &self.ends);
        write!(to, "[{}] {} {}", ends.clock, The(side), Does(call))?;
        match call {
            Call::Submit => write!(to, " {}", Quoted(packet)),
            Call::Carry => write!(to, " {}", nth_frame(ends, side, 0)),
            _ => Ok(()),
        }
    }

    // Which frame something becomes of.
    fn tell_harmed(&mut self, side: Side, n: usize) -> io::Result<()> {
        let (to, ends) = (&mut self.to, &self.ends);
        let frame = nth_frame(ends, side, n);
        write!(to, "[{}] {frame} from {}", ends.clock, The(side.other()))
    }

    fn tell_deed(&mut self, m: Move, bytes: &[u8]) -> io::Result<()> {
        match m {
            Move::Call(side, call) => self.tell_call(side, call, bytes),
            Move::Lose(side, n) | Move::Damage(side, n) => self.tell_harmed(side, n),
            Move::Pass(_) | Move::Round => Ok(()),
        }
    }

    // ---- after it

    // size: how many bytes a submit was handed.
    fn tell_event(&mut self, event: &Event, size: usize) -> io::Result<()> {
        let settings = self.ends.pair.desk.link.settings;
        let came = Came(Answer {
            event,
            settings,
            size,
        });
        writeln!(self.to, "{came}")
    }

    // The promises speak of damage that step 1 refuses; here any will do, and other is told as a forgery.
    fn tell_damage(&mut self, bytes: &[u8]) -> io::Result<()> {
        let format = self.ends.pair.desk.link.settings.format;
        if LONGEST < bytes.len() {
            write!(self.to, " stays: no frame has over {LONGEST} bytes")?;
        } else {
            write!(self.to, " is damaged: now {}", Frame(format, bytes))?;
        }
        if Hearing::of(format, bytes).passes_step_1() {
            write!(self.to, ", forged: its checksum is right")?;
        }
        writeln!(self.to)
    }

    fn tell_outcome(&mut self, m: Move, bytes: &[u8]) -> io::Result<()> {
        let clock = self.ends.clock;
        match m {
            Move::Lose(_, _) => writeln!(self.to, " is lost"),
            Move::Damage(_, _) => self.tell_damage(bytes),
            Move::Pass(ms) if 0 < ms => writeln!(self.to, "[{clock}] {ms} ms later"),
            Move::Round => writeln!(self.to, "[{clock}] -- round {}", self.ends.rounds),
            _ => Ok(()),
        }
    }

    // ---- the move

    // What the end took or delivered, which had counted so many before.
    fn keep(&mut self, side: Side, call: Call, event: &Event, before: &Part, packet: &[u8]) {
        let count = before.counts.of(side);
        let shelves = self.book.of_mut(side);
        if call == Call::Submit && event.refusal.is_none() {
            shelves.taken.put(count.taken, packet);
        }
        if let Some(packet) = &event.delivered {
            shelves.delivered.put(count.delivered, packet.as_slice());
        }
    }

    // Makes a move, and tells it. bytes: what a submit is handed, or what a damaged frame becomes.
    pub fn play(&mut self, m: Move, bytes: &[u8]) -> io::Result<()> {
        self.tell_deed(m, bytes)?;
        let before = Part::of(&self.ends);
        match (m, self.ends.make(m, bytes)) {
            (Move::Call(side, call), Some(event)) => {
                self.tell_event(&event, bytes.len())?;
                self.keep(side, call, &event, &before, bytes);
            }
            _ => self.tell_outcome(m, bytes)?,
        }
        self.tell_stretch(&before)
    }
}
