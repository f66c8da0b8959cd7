// What an end hears in a frame, as far as a teller asks.
ghost use Rattle.std.specs.Prelude.{◌≡◌};
ghost use Rattle.frame.specs.Steps.{heard};
ghost use Rattle.frame.specs.Orders.{in_other_order};
ghost use Rattle.ends.specs.Hearing.{of_wrong_sum};

use frame::{Format, Heard};

// is_bare: the frame has no more than what every frame has, and so no packet.
#[derive(Clone, Copy, PartialEq, Eq)]
pub enum Hearing {
    // Step 1 refuses it: by its size; by its checksum; by one that is right in the other order of FCS.
    Size,
    Sum,
    Turned,
    // Step 3 does, by its size or by its LEN alone; step 4 does, by its LEN.
    ControlSize { is_bare: bool },
    Length { is_bare: bool },
    Reset,
    Other,
}

// What every frame has: FCTR, LEN and FCS.
const BARE: usize = 5;

fn of_wrong_sum(format: Format, frame: &[u8]) -> Hearing
    ensures { result ≡ of_wrong_sum (heard (in_other_order format) frame.now) }
{
    match frame::hear(frame::other_order(format), frame) {
        Heard::Sum => Hearing::Sum,
        _ => Hearing::Turned,
    }
}

impl Hearing {
    ghost use Rattle.std.specs.Prelude.{◌≡◌};
    ghost use Rattle.ends.specs.Hearing.{hearing_of, passes};

    // What an end with that format hears.
    pub fn of(format: Format, frame: &[u8]) -> Hearing
        ensures { result ≡ hearing_of format frame.now }
    {
        let is_bare = frame.len() == BARE;
        match frame::hear(format, frame) {
            Heard::Size => Hearing::Size,
            Heard::Sum => of_wrong_sum(format, frame),
            Heard::ControlSize => Hearing::ControlSize { is_bare },
            Heard::Length => Hearing::Length { is_bare },
            Heard::Reset => Hearing::Reset,
            _ => Hearing::Other,
        }
    }

    // Whether its size and its checksum are right: what damage on the way does not leave.
    pub fn passes_step_1(self) -> bool
        ensures { result ≡ passes self }
    {
        match self {
            Hearing::Size | Hearing::Sum | Hearing::Turned => false,
            _ => true,
        }
    }
}
