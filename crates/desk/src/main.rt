// A loan goes from a desk to its chip, both of them in one program. What to copy is in turn.rt.
#![tactic(auto)]

mod turn;

use base::answer;
use base::buffer::part;
use chain::Joined;
use state::Outcome;
use std::io;
use std::io::Write;
use text::page::Page;
use turn::{End, Incoming};

// Two packets.
const LOAN: &[u8] =
    b"loan 4711: Moby-Dick; or, The Whale, by Herman Melville, shelf 813, copy 2, to reader 52, from desk 1. \
    Lent on 2 May at 9:14 and due on 30 May; twice as long if nobody else asks for it. \
    When lent, the spine was worn, page 135 was loose, and the map was in the pocket of its back cover, folded in two.";

// From here on all that is on its way is lost, for so many milliseconds: just long enough that the link is lost too.
const NOISE: u32 = 14;

const NOISY: u32 = 400;

fn tell_turn(to: &mut impl Write, end: &str, ms: u32, o: Outcome) -> io::Result<()> {
    if o.answer != answer::DONE {
        writeln!(to, "[{ms}] the {end} answers {}", o.answer)?;
    }
    if o.delivered != 0 {
        writeln!(to, "[{ms}] the {end} gets {} bytes", o.delivered)?;
    }
    if o.sent != 0 {
        writeln!(to, "[{ms}] the {end} sends {} bytes", o.sent)?;
    }
    Ok(())
}

fn carried<'a>(to: &mut impl Write, sent: &'a [u8], ms: u32) -> io::Result<&'a [u8]> {
    if NOISY <= ms.wrapping_sub(NOISE) {
        return Ok(sent);
    }
    if !sent.is_empty() {
        writeln!(to, "[{ms}] {} bytes are lost on the way", sent.len())?;
    }
    Ok(&[])
}

fn tell_joined(to: &mut impl Write, ms: u32, j: Joined, room: &[u8]) -> io::Result<()> {
    let length = j.length;
    if j.answer != answer::DONE {
        writeln!(to, "[{ms}] joining answers {}", j.answer)?;
    }
    if length == 0 {
        return Ok(());
    }
    if part(room, 0, usize::from(length)) == LOAN {
        return writeln!(
            to,
            "[{ms}] the chip has the loan, {length} bytes, as it was sent"
        );
    }
    writeln!(
        to,
        "[{ms}] the chip has a message of {length} bytes that nobody sent"
    )
}

fn main(rt: HostRuntime) -> io::Result<()> {
    let mut page = Page::new(rt.stdout());
    // The clock wraps after the first turn.
    let mut ms: u32 = 4294967290;
    let mut chip = End::start();
    let mut desk = End::start();
    desk.renew(ms);
    let mut incoming = Incoming::new();
    // Stays: a count of turns, more than the loan takes; there is nothing to go through.
    for _ in 0..60 {
        tell_turn(&mut page, "desk", ms, desk.last)?;
        let to_chip = carried(&mut page, desk.sent(), ms)?;
        chip.serve(ms, to_chip, b"", incoming.joining.opened);
        tell_turn(&mut page, "chip", ms, chip.last)?;
        let joined = incoming.join(&chip, to_chip);
        tell_joined(&mut page, ms, joined, &incoming.room)?;
        let to_desk = carried(&mut page, chip.sent(), ms)?;
        ms = ms.wrapping_add(10);
        desk.serve(ms, to_desk, LOAN, false);
    }
    Ok(())
}
