// Text for output.
ghost use Rattle.std.specs.Prelude.{◌≡◌, ◌+◌, ◌++◌, ◌<◌, ◌≤◌, OnOk, OnErr, length};
ghost use Rattle.arrayvec.specs.ArrayVec.{array_vec_len};
ghost use Rattle.std.specs.Io.KnownBytes.{Keeps, Appends};

use arrayvec::ArrayVec;
use std::fmt::Formatter;
use std::io::Write;
use std::{fmt, io};

// Longer than most lines, so that these are written at once.
const LINE: usize = 8192;

// A writer that is handed what waits as soon as a text ends in a line feed, so that no text waits beyond its line; and before the array
// is too full for a text. Nothing is left out, however long a line is; behind an error the writer has what it took, and what waits is as it
// was.
#[derive(Drop)]
pub struct Page<W> {
    to: W,
    line: ArrayVec<u8, LINE>,
}

impl<W: Write> Page<W> {
    ghost use Rattle.text.specs.Page.{laid};

    pub fn new(to: W) -> Self
        ensures to { result.to ≡ to }
        ensures empty { array_vec_len result.line ≡ 0 }
    {
        Page {
            to,
            line: ArrayVec::new(),
        }
    }

    fn write_out(&mut self) -> io::Result<()>
        ensures empty { OnOk result (array_vec_len self.new.line ≡ 0) }
        ensures same { OnErr result (self.new.line.items ≡ self.old.line.items) }
        ensures bytes { OnOk result (Keeps (laid W.contents self.old) (laid W.contents self.new)) }
    {
        self.to.write_all(self.line.as_slice())?;
        self.line.clear();
        Ok(())
    }

    fn lay(&mut self, text: &[u8])
        requires { array_vec_len self.old.line + length text.now ≤ 8192 }
        ensures longer { self.new.line.items ≡ self.old.line.items ++ text.now }
        ensures bytes { Appends (laid W.contents self.old) (laid W.contents self.new) text.now }
    {
        let _ = self.line.try_extend_from_slice(text);
    }

    // The last of a line, of which the beginning waits.
    fn end_line(&mut self, text: &[u8]) -> io::Result<()>
        requires { array_vec_len self.old.line + length text.now ≤ 8192 }
        ensures bytes { OnOk result (Appends (laid W.contents self.old) (laid W.contents self.new) text.now) }
        ensures err { OnErr result (self.new.line.items ≡ self.old.line.items) }
    {
        let kept = self.line.len();
        self.lay(text);
        let written = self.write_out();
        if written.is_err() {
            self.line.truncate(kept);
        }
        written
    }

    // A text for which there is no room behind what waits.
    fn write_behind(&mut self, text: &[u8]) -> io::Result<()>
        ensures bytes { OnOk result (Appends (laid W.contents self.old) (laid W.contents self.new) text.now) }
        ensures err { OnErr result (self.new.line.items ≡ self.old.line.items) }
    {
        self.to.write_all(self.line.as_slice())?;
        if LINE < text.len() || text.ends_with(b"\n") {
            self.to.write_all(text)?;
            self.line.clear();
            return Ok(());
        }
        self.line.clear();
        self.lay(text);
        Ok(())
    }
}

impl<W: Write> Write for Page<W> {
    ghost use Rattle.std.specs.Io.KnownBytes.{WriteAppends};
    ghost use Rattle.text.specs.Page.{laid};

    fn write(&mut self, text: &[u8]) -> io::Result<usize> {
        self.write_all(text)?;
        Ok(text.len())
    }

    fn flush(&mut self) -> io::Result<()> {
        self.write_out()?;
        self.to.flush()
    }

    fn write_all(&mut self, text: &[u8]) -> io::Result<()>
        ensures bytes { OnOk result (Appends (laid W.contents self.old) (laid W.contents self.new) text.now) }
        ensures err { OnErr result (self.new.line.items ≡ self.old.line.items) }
    {
        if self.line.remaining_capacity() < text.len() {
            return self.write_behind(text);
        }
        if text.ends_with(b"\n") {
            return self.end_line(text);
        }
        self.lay(text);
        Ok(())
    }
}

// So many bytes are printed at once.
const PIECE: usize = 64;

// Stays: by hand; eight bytes by `{:016X}`, and the rest one by one, are slower.
fn digit(nibble: u8) -> u8
    requires { nibble < 16 }
{
    if nibble < 10 {
        b'0' + nibble
    } else {
        b'A' + (nibble - 10)
    }
}

// At most a piece.
fn write_digits<W: fmt::Write>(f: &mut Formatter<W>, bytes: &[u8]) -> fmt::Result
    requires { length bytes.now ≤ 64 }
{
    let mut digits = [[0u8; 2]; PIECE];
    for (pair, byte) in digits.iter_mut().zip(bytes) {
        *pair = [digit(byte >> 4), digit(byte & 15)];
    }
    let text = digits[..bytes.len()].as_flattened();
    f.write_str(str::from_utf8(text).map_err(|_| fmt::Error)?)
}

// Bytes in hexadecimal digits, upper case; `-` for none.
#[derive(Clone, Copy)]
pub struct Hex<'a>(pub &'a [u8]);

impl fmt::Display for Hex<'_> {
    fn fmt<W: fmt::Write>(&self, f: &mut Formatter<W>) -> fmt::Result {
        if self.0.is_empty() {
            return f.write_str("-");
        }
        let (pieces, rest) = self.0.as_chunks::<PIECE>();
        for piece in pieces {
            write_digits(f, piece)?;
        }
        write_digits(f, rest)
    }
}

// At most a piece.
fn write_characters<W: fmt::Write>(f: &mut Formatter<W>, bytes: &[u8]) -> fmt::Result
    requires { length bytes.now ≤ 64 }
{
    let mut characters = [b'.'; PIECE];
    for (character, byte) in characters.iter_mut().zip(bytes) {
        if matches!(*byte, b' '..=b'~') {
            *character = *byte;
        }
    }
    let text = &characters[..bytes.len()];
    f.write_str(str::from_utf8(text).map_err(|_| fmt::Error)?)
}

// Bytes as characters, and a dot for each that is no printable one.
#[derive(Clone, Copy)]
pub struct Printable<'a>(pub &'a [u8]);

impl fmt::Display for Printable<'_> {
    fn fmt<W: fmt::Write>(&self, f: &mut Formatter<W>) -> fmt::Result {
        let (pieces, rest) = self.0.as_chunks::<PIECE>();
        for piece in pieces {
            write_characters(f, piece)?;
        }
        write_characters(f, rest)
    }
}

// Of longer bytes that are quoted the beginning will do.
const QUOTED: usize = 60;

// Bytes as characters in quotes; of many the beginning, and two dots.
#[derive(Clone, Copy)]
pub struct Quoted<'a>(pub &'a [u8]);

impl fmt::Display for Quoted<'_> {
    fn fmt<W: fmt::Write>(&self, f: &mut Formatter<W>) -> fmt::Result {
        match self.0.split_at_checked(QUOTED) {
            Some((beginning, [_, ..])) => write!(f, "\"{}\"..", Printable(beginning)),
            _ => write!(f, "\"{}\"", Printable(self.0)),
        }
    }
}
