// A script of calls on one end of the link and on one joining (docs/RIG.md), line by line.
#![tactic(auto)]

mod chaining;
mod frames;
mod lent;
mod linking;

use chaining::Joint;
use linking::End;
use std::io;
use std::io::{Read, Write};
use text::fields::{Fields, command};
use text::line;
use text::line::Line;
use text::page::Page;

// The most bytes of a field.
const MOST_BYTES: usize = 8192;

// 0 or 1.
fn flag(fields: &mut Fields<'_>) -> Option<bool> {
    let number = fields.number_up_to(1)?;
    Some(number == 1)
}

// What stands behind a line that is printed again: a call's is followed by what it gives.
const ARROW: &[u8] = b" -> ";

const LINE_FEED: &[u8] = b"\n";

// What goes on from line to line. is_worked: each line is printed again, and what it gives behind it.
// Stays: what prints takes a writer; a field for it would make the end and the joining generic, and is no plainer.
#[derive(Drop)]
struct Session {
    end: End,
    joint: Joint,
    is_worked: bool,
}

impl Session {
    fn new(is_worked: bool) -> Self {
        Session {
            end: End::new(),
            joint: Joint::new(),
            is_worked,
        }
    }

    fn echo(&self, to: &mut impl Write, line: &[u8], behind: &[u8]) -> io::Result<()> {
        if self.is_worked {
            to.write_all(line)?;
            to.write_all(behind)?;
        }
        Ok(())
    }

    // A line of which one file makes no command is offered to the next.
    fn obey_text(&mut self, to: &mut impl Write, number: u64, line: &[u8]) -> io::Result<()> {
        let mut room = [0u8; MOST_BYTES];
        if let Some(c) = command(line, &mut room, linking::read) {
            self.echo(to, line, c.behind())?;
            return self.end.obey(to, c, self.is_worked);
        }
        if let Some(c) = command(line, &mut room, chaining::read) {
            self.echo(to, line, c.behind())?;
            return self.joint.obey(to, c, self.is_worked);
        }
        if self.is_worked {
            if let Some(c) = command(line, &mut room, frames::read) {
                self.echo(to, line, ARROW)?;
                return frames::obey(to, c);
            }
        }
        writeln!(to, "bad line {number}")
    }

    fn obey(&mut self, to: &mut impl Write, number: u64, line: Line<'_>) -> io::Result<()> {
        match line {
            Line::Silent(text) => self.echo(to, text, LINE_FEED),
            Line::TooLong => writeln!(to, "bad line {number}"),
            Line::Text(text) => self.obey_text(to, number, text),
        }
    }
}

// Reads a script and writes what its lines give; worked (R10.13): each line again, with what it
// gives behind an arrow.
// Stays: a bool, as callers give it; an enum made of it here would be a conversion more, and its tests would say no more than this name.
pub fn run(source: &mut impl Read, to: &mut impl Write, is_worked: bool) -> io::Result<()> {
    let mut page = Page::new(to);
    let mut session = Session::new(is_worked);
    line::each(source, |number, line| session.obey(&mut page, number, line))
}
