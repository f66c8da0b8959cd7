// The moves that a command stands for.
use crate::story::Story;
use crate::words::The;
use ends::moves::{Call, Move};
use ends::rounds::PROMISED;
use ends::stretch::Phase;
use ends::{PLACES, Side};
use std::io;
use std::io::Write;

// More moves than a round has.
// Stays: a loop without a count needs a measure, and specs/ of ends has none of a round's moves.
const MOVES: u64 = u64::MAX;

impl<W: Write> Story<W> {
    pub fn call(&mut self, side: Side, call: Call) -> io::Result<()> {
        self.play(Move::Call(side, call), &[])
    }

    pub fn submit(&mut self, side: Side, packet: &[u8]) -> io::Result<()> {
        if self.ends.pair.of(side).count.taken < PLACES {
            return self.play(Move::Call(side, Call::Submit), packet);
        }
        writeln!(
            self.to,
            "[{}] {} has taken {PLACES} packets since it was fresh, and a story keeps no more",
            self.ends.clock,
            The(side)
        )
    }

    // ---- frames on their way

    // Where frame n of those on their way from that end, from 1 on, is among them; where it is not there, that is told.
    fn place(&mut self, from: Side, n: usize) -> io::Result<Option<usize>> {
        let count = self.ends.pair.of(from.other()).arriving().len();
        let place = n.checked_sub(1).filter(|&at| at < count);
        if place.is_none() {
            writeln!(
                self.to,
                "[{}] no such frame is on its way from {}",
                self.ends.clock,
                The(from)
            )?;
        }
        Ok(place)
    }

    // Where there are not so many, none is carried.
    pub fn carry(&mut self, from: Side, times: usize) -> io::Result<()> {
        if self.place(from, times)?.is_some() {
            // Stays: so many times the same, over no list.
            for _ in 0..times {
                self.call(from.other(), Call::Carry)?;
            }
        }
        Ok(())
    }

    pub fn lose(&mut self, from: Side, n: usize) -> io::Result<()> {
        if let Some(at) = self.place(from, n)? {
            self.play(Move::Lose(from.other(), at), &[])?;
        }
        Ok(())
    }

    pub fn damage(&mut self, from: Side, n: usize, bytes: &[u8]) -> io::Result<()> {
        if let Some(at) = self.place(from, n)? {
            self.play(Move::Damage(from.other(), at), bytes)?;
        }
        Ok(())
    }

    // ---- timer rounds

    fn round(&mut self) -> io::Result<()> {
        let mut m = Move::Round;
        for _ in 0..MOVES {
            self.play(m, &[])?;
            let Some(next) = self.ends.next_of_round(m) else {
                break;
            };
            m = next;
        }
        Ok(())
    }

    pub fn rounds(&mut self, times: u8) -> io::Result<()> {
        // Stays: so many times the same, over no list.
        for _ in 0..times {
            self.round()?;
        }
        Ok(())
    }

    // What rounds came to; in a stretch that has its promises all is through where nothing waits.
    fn outcome(&self) -> &'static str {
        if self.ends.is_lost() {
            return "a link is lost";
        }
        if !self.ends.is_settled() {
            return "not all is through";
        }
        match self.ends.stretch.phase {
            Phase::Unset => "no pair has started",
            Phase::First => "all is through",
            Phase::Later => "all of this stretch is through",
            Phase::Forged => {
                "nothing waits any more, but a frame was forged: what arrived need not be what was taken"
            }
            Phase::Outside => "nothing waits any more",
        }
    }

    // Rounds until all is through, and how many they were; no more than bring it through.
    pub fn settle(&mut self) -> io::Result<()> {
        let (rounds, passed) = (self.ends.rounds, self.ends.passed);
        // Stays: so many times the same, over no list.
        for _ in 0..PROMISED {
            if self.ends.is_settled() || self.ends.is_lost() {
                break;
            }
            self.round()?;
        }
        let (clock, outcome) = (self.ends.clock, self.outcome());
        write!(self.to, "[{clock}] -- {outcome}")?;
        if self.ends.stretch.phase != Phase::Unset {
            let rounds = self.ends.rounds.wrapping_sub(rounds);
            let passed = self.ends.passed.wrapping_sub(passed);
            write!(self.to, "; timer rounds: {rounds}, milliseconds: {passed}")?;
        }
        writeln!(self.to)
    }
}
