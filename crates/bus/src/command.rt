// A line's command: docs/BUS.md.
use ends::Side;
use state::Settings;
use text::fields::Fields;
use text::{fields, settings};

// Frames are named by their sender, and counted from 1 on.
#[derive(Clone, Copy)]
pub enum Command<'a> {
    Pair(Settings, u32),
    End,
    Submit(Side, &'a [u8]),
    Look(Side),
    Acknowledge(Side),
    Resynchronise(Side),
    Carry(Side, usize),
    Lose(Side, usize),
    Damage(Side, usize, &'a [u8]),
    Wait(u32),
    Clock(u32),
    Round(u8),
    Settle,
    Show,
    Tell(&'a [u8]),
}

fn side(fields: &mut Fields<'_>) -> Option<Side> {
    match fields.word()? {
        b"desk" => Some(Side::Desk),
        b"chip" => Some(Side::Chip),
        _ => None,
    }
}

// A number of times that is not given is 1, and so is 0.
fn times(fields: &mut Fields<'_>) -> Option<u8> {
    let times: u8 = fields.number_or_0()?;
    Some(times.max(1))
}

fn number(fields: &mut Fields<'_>) -> Option<usize> {
    let number: u32 = fields.number()?;
    Some(number as usize)
}

fn pair<'a>(fields: &mut Fields<'a>) -> Option<Command<'a>> {
    let mut s = settings::read(fields)?;
    let clock = fields.number_or_0()?;
    s.format.order = fields.number_or_0()?;
    Some(Command::Pair(s, clock))
}

fn carry<'a>(fields: &mut Fields<'a>) -> Option<Command<'a>> {
    let from = side(fields)?;
    Some(Command::Carry(from, usize::from(times(fields)?)))
}

fn lose<'a>(fields: &mut Fields<'a>) -> Option<Command<'a>> {
    let from = side(fields)?;
    Some(Command::Lose(from, number(fields)?))
}

fn damage<'a>(fields: &mut Fields<'a>, room: &'a mut [u8]) -> Option<Command<'a>> {
    let from = side(fields)?;
    let n = number(fields)?;
    Some(Command::Damage(from, n, fields.bytes(room)?))
}

fn submit<'a>(fields: &mut Fields<'a>) -> Option<Command<'a>> {
    let at = side(fields)?;
    Some(Command::Submit(at, fields.text()?))
}

fn of_word<'a>(word: &[u8], fields: &mut Fields<'a>, room: &'a mut [u8]) -> Option<Command<'a>> {
    match word {
        b"pair" => pair(fields),
        b"end" => Some(Command::End),
        b"submit" => submit(fields),
        b"look" => Some(Command::Look(side(fields)?)),
        b"acknowledge" => Some(Command::Acknowledge(side(fields)?)),
        b"resynchronise" => Some(Command::Resynchronise(side(fields)?)),
        b"carry" => carry(fields),
        b"lose" => lose(fields),
        b"damage" => damage(fields, room),
        b"wait" => Some(Command::Wait(fields.number()?)),
        b"clock" => Some(Command::Clock(fields.number()?)),
        b"round" => Some(Command::Round(times(fields)?)),
        b"settle" => Some(Command::Settle),
        b"show" => Some(Command::Show),
        b"tell" => Some(Command::Tell(fields.text().unwrap_or(&[]))),
        _ => None,
    }
}

// The line's command, its bytes laid in `room`; none where it is no command.
pub fn read<'a>(line: &'a [u8], room: &'a mut [u8]) -> Option<Command<'a>> {
    fields::command(line, room, of_word)
}
