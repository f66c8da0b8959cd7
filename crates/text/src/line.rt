// Input, line by line, in no more memory than one buffer.
ghost use Rattle.std.specs.Prelude.{◌≡◌, ◌+◌, ◌≤◌, IfOk, IfSome, length};
ghost use Rattle.text.specs.Line.{Short};

use memchr::memchr;
use std::io;
use std::io::Read;

// A piece of this size is read as fast as one that is larger.
const INPUT: usize = 65536;

// A longer line is dropped as it is read.
pub const LONGEST: usize = 20000;

// More reads than a run has. Stays: a count, since a loop needs a measure, and no source promises to end.
const READS: u64 = u64::MAX;

// A line without its line feed: one that asks for nothing (it is blank or a comment), one of more than LONGEST bytes, or another.
#[derive(Clone, Copy)]
pub enum Line<'a> {
    Silent(&'a [u8]),
    TooLong,
    Text(&'a [u8]),
}

// A comment that is too long is too long.
fn line_of(text: &[u8], is_long: bool) -> Line<'_>
    ensures { Short result }
{
    if is_long || LONGEST < text.len() {
        return Line::TooLong;
    }
    match text {
        [] | [b'#', ..] => Line::Silent(text),
        _ => Line::Text(text),
    }
}

// from, count: which bytes of the buffer have been read and are in no line yet. is_long: the line that they begin is too long, and what
// was read of it is dropped. is_over: the input has ended.
// Stays: the bytes lie between two marks; a vector of them has one, and would move its bytes for each line.
#[derive(Clone, Copy)]
pub struct Lines {
    buffer: [u8; INPUT],
    from: usize,
    count: usize,
    is_long: bool,
    is_over: bool,
    ghost within: { (from ≤ count) × (count ≤ 65536) },
}

impl Lines {
    // Before the first line.
    pub fn new() -> Self
        ensures { (result.from ≡ 0) × (result.count ≡ 0) }
    {
        Lines {
            buffer: [0; INPUT],
            from: 0,
            count: 0,
            is_long: false,
            is_over: false,
        }
    }

    // The line that has not ended goes to the front; of one that is too long nothing stays.
    fn keep(&mut self)
        ensures { self.new.count ≤ 20000 }
    {
        let kept = self.count - self.from;
        if self.is_long || LONGEST < kept {
            self.is_long = true;
            self.from = 0;
            self.count = 0;
            return;
        }
        self.buffer.copy_within(self.from..self.count, 0);
        self.from = 0;
        self.count = kept;
    }

    // One read behind the line that has not ended; a read that brings nothing is the input's end.
    fn read_more(&mut self, source: &mut impl Read) -> io::Result<()> {
        self.keep();
        let got = source.read(&mut self.buffer[self.count..])?;
        self.count += got;
        self.is_over = got == 0;
        Ok(())
    }

    // Where the next line that has ended is.
    fn ended(&mut self) -> Option<(usize, usize)>
        ensures { IfSome result (λ at. (at.0 ≤ at.1) × (at.1 ≤ 65536)) }
    {
        let length = memchr(b'\n', &self.buffer[self.from..self.count])?;
        let start = self.from;
        self.from += length + 1;
        Some((start, start + length))
    }

    // Where the last line is, behind the input's end: without a line feed it counts if it is not empty.
    fn last(&mut self) -> Option<(usize, usize)>
        ensures { IfSome result (λ at. (at.0 ≤ at.1) × (at.1 ≤ 65536)) }
    {
        let start = self.from;
        self.from = self.count;
        if self.is_long || start < self.count {
            return Some((start, self.count));
        }
        None
    }

    fn find(&mut self, source: &mut impl Read) -> io::Result<Option<(usize, usize)>>
        ensures { IfOk result (λ found. IfSome found (λ at. (at.0 ≤ at.1) × (at.1 ≤ 65536))) }
    {
        for _ in 0..READS {
            if let Some(at) = self.ended() {
                return Ok(Some(at));
            }
            if self.is_over {
                return Ok(self.last());
            }
            self.read_more(source)?;
        }
        Ok(None)
    }

    // The next line, and none behind the last. No more is read than it takes, and where a read fails nothing is lost.
    pub fn next(&mut self, source: &mut impl Read) -> io::Result<Option<Line<'_>>>
        ensures { IfOk result (λ found. IfSome found Short) }
    {
        let Some((start, end)) = self.find(source)? else {
            return Ok(None);
        };
        let is_long = self.is_long;
        self.is_long = false;
        Ok(Some(line_of(&self.buffer[start..end], is_long)))
    }
}

// Each line of the input in turn is handed to `follow`, with its number from 1 on, before more is read than it takes.
pub fn each<F>(source: &mut impl Read, mut follow: F) -> io::Result<()>
where
    F: FnMut(u64, Line<'_>) -> io::Result<()>,
    requires { (state : F) (number : _) (line : _) → 1 ≤ number → Short line → F.pre state number line }
{
    let mut lines = Lines::new();
    // Nothing says that the input ends, but no run uses up the numbers. Stays: a line is lent, and its read can fail: no Iterator gives such.
    for number in 1..u64::MAX {
        let Some(line) = lines.next(source)? else {
            break;
        };
        follow(number, line)?;
    }
    Ok(())
}
