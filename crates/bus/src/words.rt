// The words for what stands in more than one line, or has several forms.
use ends::Side;
use ends::end::End;
use ends::moves::Call;
use std::fmt;
use std::fmt::Formatter;

// An end, by its name.
#[derive(Clone, Copy)]
pub struct The(pub Side);

impl fmt::Display for The {
    fn fmt<W: fmt::Write>(&self, f: &mut Formatter<W>) -> fmt::Result {
        f.write_str(match self.0 {
            Side::Desk => "the desk",
            Side::Chip => "the chip",
        })
    }
}

// What an end does.
#[derive(Clone, Copy)]
pub struct Does(pub Call);

impl fmt::Display for Does {
    fn fmt<W: fmt::Write>(&self, f: &mut Formatter<W>) -> fmt::Result {
        f.write_str(match self.0 {
            Call::Submit => "submits",
            Call::Carry => "hears",
            Call::Look => "looks at the clock",
            Call::Acknowledge => "acknowledges now",
            Call::Resynchronise => "resynchronises",
        })
    }
}

// What an end keeps, and what it owes.
#[derive(Clone, Copy)]
pub struct State<'a>(pub &'a End);

impl fmt::Display for State<'_> {
    fn fmt<W: fmt::Write>(&self, f: &mut Formatter<W>) -> fmt::Result {
        let l = self.0.link;
        write!(
            f,
            "sends number {} next, expects {}, waiting packets: {}",
            l.next, l.expected, l.waiting
        )?;
        if l.acking {
            f.write_str(", owes an acknowledgement")?;
        }
        if l.nakmark {
            f.write_str(", has sent its nak")?;
        }
        if l.lost {
            f.write_str(", link lost")?;
        }
        Ok(())
    }
}

// How many packets wait at an end, and what became of others.
#[derive(Clone, Copy)]
pub struct Waiting<'a>(pub &'a End);

impl fmt::Display for Waiting<'_> {
    fn fmt<W: fmt::Write>(&self, f: &mut Formatter<W>) -> fmt::Result {
        let End { link, dropped, .. } = self.0;
        write!(f, "{}", link.waiting)?;
        if link.lost {
            f.write_str(" (link lost)")?;
        }
        if 0 < *dropped {
            write!(
                f,
                " (dropped by a reset: {dropped}, which may have arrived)"
            )?;
        }
        Ok(())
    }
}
