// What the two ends are at a moment, what came of a stretch, and of it all in the end.
use crate::story::Story;
use crate::words::{State, The, Waiting};
use ends::bytes::Bytes;
use ends::end::Count;
use ends::pair::Pair;
use ends::stretch::{Phase, Stretch};
use ends::{Ends, Side};
use std::io;
use std::io::Write;
use text::heard::Frame;
use text::page::Quoted;

// What a stretch came to so far, or what is behind it.
#[derive(Drop)]
pub struct Part {
    stretch: Stretch,
    pub counts: Pair<Count>,
}

impl Part {
    pub fn of(ends: &Ends) -> Part {
        Part {
            stretch: ends.stretch,
            counts: Pair {
                desk: ends.pair.desk.count,
                chip: ends.pair.chip.count,
            },
        }
    }
}

// Whether anything is promised of it.
fn is_promised(phase: Phase) -> bool {
    matches!(phase, Phase::First | Phase::Later)
}

fn are_same(some: &[Bytes], others: &[Bytes]) -> bool {
    some.iter()
        .zip(others)
        .all(|(a, b)| a.as_slice() == b.as_slice())
}

// Tells the end, and what is on its way to it.
fn show(to: &mut impl Write, ends: &Ends, side: Side) -> io::Result<()> {
    let end = ends.pair.of(side);
    let clock = ends.clock;
    writeln!(to, "[{clock}] {}: {}", The(side), State(end))?;
    let format = end.link.settings.format;
    for frame in end.arriving() {
        writeln!(
            to,
            "  on its way there: {}",
            Frame(format, frame.as_slice())
        )?;
    }
    Ok(())
}

// Tells what is left, and how long it all took.
fn tell_rest(to: &mut impl Write, ends: &Ends) -> io::Result<()> {
    writeln!(
        to,
        "waiting at the desk: {}, at the chip: {}",
        Waiting(&ends.pair.desk),
        Waiting(&ends.pair.chip)
    )?;
    let (rounds, passed) = (ends.rounds, ends.passed);
    writeln!(to, "timer rounds: {rounds}, milliseconds: {passed}")
}

// What stands before and behind the number of packets taken, where the end got others. Outside of a stretch nothing is claimed of them.
fn words_of_got(phase: Phase, is_same: bool) -> (&'static str, &'static str) {
    match phase {
        Phase::Outside => (" packets, and ", " were taken at "),
        _ if is_same => (" of ", " packets taken at "),
        _ => (
            " packets; one by one, these are NOT the ",
            " packets taken at ",
        ),
    }
}

// What stands before and behind a stretch's number, where its part of the story has a heading.
fn heading(phase: Phase) -> Option<(&'static str, &'static str)> {
    match phase {
        Phase::Unset | Phase::First => None,
        Phase::Later => Some(("in stretch ", ":")),
        Phase::Forged => Some((
            "in stretch ",
            ", of which nothing is promised, since a frame was forged:",
        )),
        Phase::Outside => Some((
            "behind stretch ",
            ", where nothing is promised; counted since each end was last fresh:",
        )),
    }
}

impl<W: Write> Story<W> {
    // ---- a moment

    pub fn show(&mut self) -> io::Result<()> {
        show(&mut self.to, &self.ends, Side::Desk)?;
        show(&mut self.to, &self.ends, Side::Chip)
    }

    // ---- a stretch, or what is behind it

    // Whether what the end got is what the other took first; outside of a stretch nothing is claimed of it.
    fn is_same(&self, side: Side, got: usize, taken: usize) -> bool {
        let delivered = self.book.of(side).delivered.first(got);
        let others = self.book.of(side.other()).taken.first(got);
        got <= taken && are_same(delivered, others)
    }

    // What the end got of what the other took.
    fn tell_got(&mut self, part: &Part, side: Side) -> io::Result<()> {
        let sender = side.other();
        let got = part.counts.of(side).delivered;
        let taken = part.counts.of(sender).taken;
        let is_same = self.is_same(side, got, taken);
        let phase = part.stretch.phase;
        let (before, behind) = words_of_got(phase, is_same);
        let order = if is_same && 0 < got && is_promised(phase) {
            ", each once and in order"
        } else {
            ""
        };
        writeln!(
            self.to,
            "{} got {got}{before}{taken}{behind}{}{order}",
            The(side),
            The(sender)
        )?;
        for packet in self.book.of(side).delivered.first(got) {
            writeln!(self.to, "  {}", Quoted(packet.as_slice()))?;
        }
        Ok(())
    }

    fn tell_part(&mut self, part: &Part) -> io::Result<()> {
        if let Some((before, behind)) = heading(part.stretch.phase) {
            writeln!(self.to, "{before}{}{behind}", part.stretch.number)?;
        }
        self.tell_got(part, Side::Chip)?;
        self.tell_got(part, Side::Desk)
    }

    // Tells what a stretch came to where a move has made an end of it, which takes and delivers nothing; and where another begins.
    pub fn tell_stretch(&mut self, before: &Part) -> io::Result<()> {
        let after = self.ends.stretch;
        let is_other = before.stretch.number != after.number;
        let is_over = is_other || after.phase == Phase::Outside;
        if before.stretch.phase != Phase::Outside && is_over {
            writeln!(
                self.to,
                "-- stretch {} is over: nothing is promised until the next begins",
                before.stretch.number
            )?;
            self.tell_part(before)?;
        }
        if is_other {
            writeln!(
                self.to,
                "-- stretch {} begins: both ends are fresh, and nothing is on its way",
                after.number
            )?;
        }
        Ok(())
    }

    // ---- the end

    // Tells who got what, what is left, and how long it took; nothing where there is no pair.
    pub fn tell_ending(&mut self) -> io::Result<()> {
        if self.ends.stretch.phase == Phase::Unset {
            return Ok(());
        }
        writeln!(self.to, "-- in the end")?;
        let part = Part::of(&self.ends);
        self.tell_part(&part)?;
        tell_rest(&mut self.to, &self.ends)
    }
}
