// Two ends of the link, the desk and the chip, the frames on their way between them, and one clock. Nothing is told here: each move
// returns what came of it. Nothing is required of a caller.
#![tactic(auto)]

pub mod bytes;
pub mod end;
pub mod hearing;
pub mod moves;
pub mod pair;
mod queue;
pub mod rounds;
pub mod stretch;

use base::answer::Refusal;
pub use end::{End, PLACES};
use moves::{Call, Event, Move};
use pair::Pair;
use state::Settings;
use stretch::Stretch;

#[derive(Clone, Copy, PartialEq, Eq)]
pub enum Side {
    Desk,
    Chip,
}

impl Side {
    ghost use Rattle.std.specs.Prelude.{◌≡◌};
    ghost use Rattle.ends.specs.Sides.{other_side};

    pub fn other(self) -> Side
        ensures { result ≡ other_side self }
    {
        match self {
            Side::Desk => Side::Chip,
            Side::Chip => Side::Desk,
        }
    }
}

// passed, rounds: the milliseconds and timer rounds since both ends started.
#[derive(Clone, Copy)]
pub struct Ends {
    pub pair: Pair<End>,
    pub stretch: Stretch,
    pub passed: u64,
    pub rounds: u64,
    pub clock: u32,
}

impl Ends {
    ghost use Rattle.std.specs.Prelude.{◌≡◌, ◌↔◌, IsSome};
    ghost use Rattle.base.specs.Answer.{answer_of};
    ghost use Rattle.ends.specs.Sides.{IsUnset};
    ghost use Rattle.ends.specs.declared.stretch.Phase.TheVariants.{Unset};
    ghost use Rattle.ends.specs.Moves.{clock_after, IsCall};
    ghost use Rattle.state.specs.Calls.{zeros, started};

    // Before any start: nothing is set, and every call answers so.
    pub fn unset() -> Ends
        ensures desk { IsUnset result.pair.desk }
        ensures chip { IsUnset result.pair.chip }
        ensures stretch { result.stretch.phase ≡ Unset }
        ensures counts { (result.passed ≡ 0) × (result.rounds ≡ 0) }
        ensures clock { result.clock ≡ 0 }
    {
        Ends {
            pair: Pair {
                desk: End::unset(),
                chip: End::unset(),
            },
            stretch: Stretch::unset(),
            passed: 0,
            rounds: 0,
            clock: 0,
        }
    }

    // As before any start.
    pub fn unstart(&mut self)
        ensures desk { IsUnset self.new.pair.desk }
        ensures chip { IsUnset self.new.pair.chip }
        ensures stretch { self.new.stretch.phase ≡ Unset }
        ensures counts { (self.new.passed ≡ 0) × (self.new.rounds ≡ 0) }
        ensures clock { self.new.clock ≡ 0 }
    {
        self.pair.desk.unstart();
        self.pair.chip.unstart();
        self.stretch = Stretch::unset();
        self.passed = 0;
        self.rounds = 0;
        self.clock = 0;
    }

    // Starts both ends with these settings, nothing on its way between them. Where a setting is out of range both refuse: they are zeros,
    // and answer so to every call.
    pub fn start(&mut self, s: Settings, clock: u32) -> Result<(), Refusal>
        ensures desk { self.new.pair.desk.link ≡ (started s 2048).state }
        ensures chip { self.new.pair.chip.link ≡ (started s 2048).state }
        ensures answer { answer_of result ≡ (started s 2048).answer }
        ensures clock { self.new.clock ≡ clock }
    {
        let _ = self.pair.chip.start(s);
        let started = self.pair.desk.start(s);
        self.stretch = if started.is_ok() {
            Stretch::first()
        } else {
            Stretch::unset()
        };
        self.passed = 0;
        self.rounds = 0;
        self.clock = clock;
        started
    }

    // Whether a stretch may begin.
    fn are_ready(&self) -> bool {
        self.pair.desk.is_ready() && self.pair.chip.is_ready()
    }

    fn call(&mut self, side: Side, call: Call, packet: &[u8]) -> Event
        ensures { self.new.clock ≡ self.old.clock }
    {
        let (here, there) = self.pair.both_mut(side);
        let event = here.call(there, call, self.clock, packet);
        let are_ready = self.are_ready();
        self.stretch.advance(event.is_fresh(), are_ready);
        event
    }

    // Makes the move, and gives what came of it where it is a call. bytes: what a submit is handed, or what a damaged frame becomes; no
    // other move reads them.
    pub fn make(&mut self, m: Move, bytes: &[u8]) -> Option<Event>
        ensures call { IsSome result ↔ IsCall self.old m }
        ensures clock { self.new.clock ≡ clock_after self.old.clock m }
    {
        match m {
            Move::Call(side, Call::Carry) if self.pair.of(side).arriving().is_empty() => {}
            Move::Call(side, call) => return Some(self.call(side, call, bytes)),
            Move::Lose(side, n) => {
                self.pair.of_mut(side).lose(n);
                let are_ready = self.are_ready();
                self.stretch.advance(false, are_ready);
            }
            Move::Damage(side, n) => {
                if self.pair.of_mut(side).damage(n, bytes) {
                    self.stretch.forge();
                }
            }
            Move::Pass(ms) => {
                self.clock = self.clock.wrapping_add(ms);
                self.passed = self.passed.wrapping_add(u64::from(ms));
            }
            Move::Round => self.rounds = self.rounds.wrapping_add(1),
        }
        None
    }
}
