// The fields of a line: words apart by one space each.
ghost use Rattle.std.specs.Prelude.{◌≡◌, ◌≤◌, ◌↔◌, length, IsSome, IsNone, Some, IfSome};

use memchr::memchr;
use std::num::TryFromIntError;

// rest: what is not yet read; none where the line's last word is.
#[derive(Clone, Copy)]
pub struct Fields<'a> {
    rest: Option<&'a [u8]>,
}

// Digits alone, one at least. A number above the largest u64 is too large for every field.
// Stays: digit by digit; `parse` takes a sign too, and a text that was checked before, which is slower.
fn number_of(word: &[u8]) -> Option<u64> {
    if word.is_empty() {
        return None;
    }
    let mut number: u64 = 0;
    for byte in word {
        let digit = char::from(*byte).to_digit(10)?;
        number = number.checked_mul(10)?.checked_add(u64::from(digit))?;
    }
    Some(number)
}

impl<'a> Fields<'a> {
    // The line's first word is the first of them.
    pub fn of(line: &'a [u8]) -> Fields<'a>
        ensures { result.rest ≡ Some line.entry }
    {
        Fields { rest: Some(line) }
    }

    // The next word, as it stands; it is empty where two spaces follow each other, or where one ends the line.
    pub fn word(&mut self) -> Option<&'a [u8]>
        ensures given { IsSome result ↔ IsSome self.old.rest }
        ensures within { IfSome result (λ word. IfSome self.old.rest (λ rest. length word.now ≤ length rest.now)) }
    {
        let rest = self.rest?;
        let Some(end) = memchr(b' ', rest) else {
            self.rest = None;
            return Some(rest);
        };
        self.rest = Some(&rest[end + 1..]);
        Some(&rest[..end])
    }

    // A number in decimal digits, no larger than its type.
    pub fn number<T: TryFrom<u64, Error = TryFromIntError>>(&mut self) -> Option<T>
        ensures { IsSome result → IsSome self.old.rest }
    {
        let number = number_of(self.word()?)?;
        T::try_from(number).ok()
    }

    pub fn number_up_to(&mut self, largest: usize) -> Option<usize>
        ensures { IfSome result (λ n. n ≤ largest) }
    {
        let number = self.number()?;
        (number <= largest).then_some(number)
    }

    // A number that was added to a line later, and is 0 where it is absent.
    pub fn number_or_0<T: TryFrom<u64, Error = TryFromIntError> + Default>(&mut self) -> Option<T>
        ensures { IsNone self.old.rest → IsSome result }
    {
        if self.rest.is_none() {
            return Some(T::default());
        }
        self.number()
    }

    // Bytes in hexadecimal digits of either case, or a dash for none; they are laid in `room`, and more than fit there are no field.
    pub fn bytes<'b>(&mut self, room: &'b mut [u8]) -> Option<&'b [u8]>
        ensures { IfSome result (λ bytes. length bytes.now ≤ length room.old) }
    {
        let word = self.word()?;
        match word {
            [] => None,
            b"-" => Some(&[]),
            _ => {
                let bytes = room.get_mut(..word.len() / 2)?;
                hex::decode_to_slice(word, &mut *bytes).ok()?;
                Some(bytes)
            }
        }
    }

    // The rest of the line, as it stands.
    pub fn text(&mut self) -> Option<&'a [u8]>
        ensures given { result ≡ self.old.rest }
        ensures ends { self.new.rest ≡ None }
    {
        self.rest.take()
    }

    // Whether there is no field left.
    pub fn end(&self) -> Option<()>
        ensures { IsSome result ↔ IsNone self.now.rest }
    {
        self.rest.is_none().then_some(())
    }
}

// What a line asks for, as `read_command` reads its first word and the fields behind it, with room for their bytes; none where one is left.
pub fn command<'a, C, R>(line: &'a [u8], room: &'a mut [u8], read_command: R) -> Option<C>
where
    C: Drop,
    R: Fn(&'a [u8], &mut Fields<'a>, &'a mut [u8]) -> Option<C>,
    requires { R.IsAlwaysCallable read_command }
    ensures { IfSome result (λ c. (w : _) × (f : _) × (r : _) × (left : _) × R.post read_command w f r (Some c) left × IsNone left.now.rest) }
{
    let mut fields = Fields::of(line);
    let word = fields.word()?;
    let command = read_command(word, &mut fields, room)?;
    fields.end()?;
    Some(command)
}
