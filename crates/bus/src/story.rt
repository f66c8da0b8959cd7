// What each command tells, and what it does to the two ends.
use crate::book::Book;
use crate::command::Command;
use crate::reason::Ranges;
use crate::{book, command};
use base::answer::Refusal;
use ends::Ends;
use ends::moves::{Call, Move};
use state::Settings;
use std::io;
use std::io::Write;
use text::line::{LONGEST, Line};
use text::page::Printable;

#[derive(Drop)]
pub struct Story<W> {
    pub to: W,
    pub ends: Ends,
    pub book: Book,
}

// None where the order is neither.
fn order_words(order: u8) -> &'static str {
    match order {
        frame::LOW_FIRST => ", FCS low byte first",
        frame::HIGH_FIRST => ", FCS high byte first",
        _ => "",
    }
}

impl<W: Write> Story<W> {
    pub fn new(to: W) -> Story<W> {
        Story {
            to,
            ends: Ends::unset(),
            book: book::empty(),
        }
    }

    // ---- a pair

    fn tell_start(&mut self, s: Settings, started: Result<(), Refusal>) -> io::Result<()> {
        write!(self.to, "[{}] the desk and the chip ", self.ends.clock)?;
        match started {
            Ok(()) => write!(self.to, "start")?,
            Err(refusal) => write!(self.to, "answer {} and do NOT start", refusal.number())?,
        }
        write!(
            self.to,
            ": D {}, window {}, a packet again after {} ms",
            s.format.d, s.window, s.transtimeout
        )?;
        write!(
            self.to,
            ", at most {} times, an acknowledgement after {} ms",
            s.repeats, s.acktimeout
        )?;
        writeln!(self.to, "{}{}", order_words(s.format.order), Ranges(s))
    }

    // The story so far has its ending, and another begins.
    fn start(&mut self, s: Settings, clock: u32) -> io::Result<()> {
        self.tell_ending()?;
        let started = self.ends.start(s, clock);
        self.tell_start(s, started)
    }

    fn end(&mut self) -> io::Result<()> {
        self.tell_ending()?;
        self.ends.unstart();
        Ok(())
    }

    // ---- every command

    fn follow(&mut self, command: Command<'_>) -> io::Result<()> {
        match command {
            Command::Pair(s, clock) => self.start(s, clock),
            Command::End => self.end(),
            Command::Submit(side, packet) => self.submit(side, packet),
            Command::Look(side) => self.call(side, Call::Look),
            Command::Acknowledge(side) => self.call(side, Call::Acknowledge),
            Command::Resynchronise(side) => self.call(side, Call::Resynchronise),
            Command::Carry(from, times) => self.carry(from, times),
            Command::Lose(from, n) => self.lose(from, n),
            Command::Damage(from, n, bytes) => self.damage(from, n, bytes),
            Command::Wait(ms) => self.play(Move::Pass(ms), &[]),
            // The clock goes around its end where the moment is less than now.
            Command::Clock(at) => self.play(Move::Pass(at.wrapping_sub(self.ends.clock)), &[]),
            Command::Round(times) => self.rounds(times),
            Command::Settle => self.settle(),
            Command::Show => self.show(),
            Command::Tell(text) => writeln!(self.to, "{}", Printable(text)),
        }
    }

    fn obey_text(&mut self, number: u64, text: &[u8]) -> io::Result<()> {
        let mut room = [0u8; LONGEST];
        match command::read(text, &mut room) {
            Some(command) => self.follow(command),
            None => self.tell_bad(number),
        }
    }

    fn tell_bad(&mut self, number: u64) -> io::Result<()> {
        writeln!(self.to, "bad line {number}")
    }

    // What line number so many tells.
    pub fn obey(&mut self, number: u64, line: Line<'_>) -> io::Result<()> {
        match line {
            Line::Silent(_) => Ok(()),
            Line::TooLong => self.tell_bad(number),
            Line::Text(text) => self.obey_text(number, text),
        }
    }
}
