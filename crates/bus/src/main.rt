// Two ends of the link on a bus, the desk and the chip, told as a story: docs/BUS.md.
#![tactic(auto)]

mod book;
mod command;
mod deeds;
mod ending;
mod reason;
mod rounds;
mod story;
mod words;

use std::io;
use story::Story;
use text::line;
use text::page::Page;

fn main(rt: HostRuntime) -> io::Result<()> {
    let mut source = rt.stdin();
    let mut story = Story::new(Page::new(rt.stdout()));
    line::each(&mut source, |number, line| story.obey(number, line))?;
    story.tell_ending()
}
