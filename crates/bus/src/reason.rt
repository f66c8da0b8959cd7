// Why a call refuses. Where R8 has one number for several reasons, the one that is true is told.
use base::answer::Refusal;
use ends::hearing::Hearing;
use ends::moves::Event;
use state::Settings;
use std::fmt;
use std::fmt::Formatter;

// ---- a call

// Why a frame is refused, by what was heard in it.
fn refusal_words(heard: Hearing) -> &'static str {
    match heard {
        Hearing::Sum => " (checksum: wrong, as damage on the way or bytes too many make it)",
        Hearing::Turned => {
            " (checksum: its two bytes are the other way round, as an end of the other order sends them)"
        }
        Hearing::ControlSize { is_bare: false } => " (a control frame of over 5 bytes)",
        Hearing::ControlSize { is_bare: true } => " (a control frame whose LEN is not 0)",
        Hearing::Length { is_bare: false } => {
            " (length: LEN is not the number of bytes it carries, though the checksum is right)"
        }
        Hearing::Length { is_bare: true } => {
            " (length: it carries no packet, though the checksum is right)"
        }
        Hearing::Size | Hearing::Reset | Hearing::Other => "",
    }
}

// What a call answers that refuses, and why. size: how many bytes a submit was handed.
#[derive(Clone, Copy)]
pub struct Answer<'a> {
    pub event: &'a Event,
    pub settings: Settings,
    pub size: usize,
}

impl Answer<'_> {
    // Where no number belongs to it.
    fn reason(&self, refusal: Refusal) -> &'static str {
        match refusal {
            Refusal::OutOfRange => " (no pair has started: D is 0, not 16 to 1024)",
            Refusal::LinkLost if self.event.was_lost => " (link lost before)",
            Refusal::LinkLost => " (link lost now)",
            Refusal::WindowFull => " (window full)",
            Refusal::UnusedCode => " (unused code)",
            Refusal::Unexpected => " (not the expected number)",
            Refusal::FrameSum | Refusal::ControlSize | Refusal::FrameLength => {
                refusal_words(self.event.heard)
            }
            _ => "",
        }
    }
}

impl fmt::Display for Answer<'_> {
    fn fmt<W: fmt::Write>(&self, f: &mut Formatter<W>) -> fmt::Result {
        let Some(refusal) = self.event.refusal else {
            return Ok(());
        };
        let number = refusal.number();
        let limit = state::limit(self.settings);
        match refusal {
            Refusal::PacketSize => write!(
                f,
                ", answers {number} (a packet of {} bytes, not 1 to {limit})",
                self.size
            ),
            Refusal::FrameSize => write!(
                f,
                ", answers {number} (size: not 5 to {} bytes)",
                self.settings.format.d
            ),
            _ => write!(f, ", answers {number}{}", self.reason(refusal)),
        }
    }
}

// ---- a start

// Each setting that is out of its range, and the range.
#[derive(Clone, Copy)]
pub struct Ranges(pub Settings);

impl fmt::Display for Ranges {
    fn fmt<W: fmt::Write>(&self, f: &mut Formatter<W>) -> fmt::Result {
        let s = self.0;
        let (d, order, trans, ack) = (s.format.d, s.format.order, s.transtimeout, s.acktimeout);
        if !(16..=1024).contains(&d) {
            write!(f, " (D is {d}, not 16 to 1024)")?;
        }
        if !(1..=2).contains(&s.window) {
            write!(f, " (WIN is {}, not 1 to 2)", s.window)?;
        }
        if !(2..=1000).contains(&trans) {
            write!(f, " (TRANS is {trans}, not 2 to 1000)")?;
        }
        if !(1..trans).contains(&ack) {
            write!(
                f,
                " (ACK is {ack}, not 1 to less than TRANS, which is {trans})"
            )?;
        }
        if !(1..=4).contains(&s.repeats) {
            write!(f, " (REP is {}, not 1 to 4)", s.repeats)?;
        }
        if 1 < order {
            write!(f, " (ORDER is {order}, not 0 or 1)")?;
        }
        Ok(())
    }
}
