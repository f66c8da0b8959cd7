// The timer round of R6.5, move by move.
use crate::end::End;
use crate::moves::{Call, Move};
use crate::{Ends, Side};

// R14.4: the most rounds until all is through.
pub const PROMISED: u64 = 24;

impl End {
    ghost use Rattle.std.specs.Prelude.{◌≡◌, ◌↔◌, IsTrue};
    ghost use Rattle.state.specs.Timer.{time_left};
    ghost use Rattle.ends.specs.Rounds.{IsSettled};

    fn is_due(&self, ms: u32) -> bool
        ensures { IsTrue result → time_left self.now.link ms ≡ 0 }
    {
        state::time_left(self.link, ms) == 0 && !self.link.lost
    }

    fn is_settled(&self) -> bool
        ensures { IsTrue result ↔ IsSettled self.now }
    {
        self.arriving().is_empty() && self.link.waiting == 0 && !self.link.acking
    }
}

impl Ends {
    ghost use Rattle.std.specs.Prelude.{◌≡◌, ◌↔◌, ◌||◌, IsTrue, IfSome};
    ghost use Rattle.ends.specs.Rounds.{MayFollow, IsSettled};

    fn next_look(&self) -> Option<Move>
        ensures { IfSome result (MayFollow self.now) }
    {
        if self.pair.desk.is_due(self.clock) {
            return Some(Move::Call(Side::Desk, Call::Look));
        }
        if self.pair.chip.is_due(self.clock) {
            return Some(Move::Call(Side::Chip, Call::Look));
        }
        None
    }

    // How far off the first moment is at which a timer of either end is due, if one runs.
    fn first_due(&self) -> Option<u32> {
        let desk = state::time_left(self.pair.desk.link, self.clock);
        let chip = state::time_left(self.pair.chip.link, self.clock);
        match desk.min(chip) {
            state::NO_TIMER => None,
            soonest => Some(u32::from(soonest)),
        }
    }

    fn next_timer(&self) -> Option<Move>
        ensures { IfSome result (MayFollow self.now) }
    {
        match self.first_due() {
            None | Some(0) => self.next_look(),
            Some(ms) => Some(Move::Pass(ms)),
        }
    }

    // From the longer queue, so that the other has room for what comes of it; when nothing is on its way any more, the clock.
    fn next_carry(&self) -> Option<Move>
        ensures { IfSome result (MayFollow self.now) }
    {
        let (desk, chip) = (
            self.pair.desk.arriving().len(),
            self.pair.chip.arriving().len(),
        );
        if chip < desk {
            return Some(Move::Call(Side::Desk, Call::Carry));
        }
        if 0 < chip {
            return Some(Move::Call(Side::Chip, Call::Carry));
        }
        self.next_timer()
    }

    // The next move of a round, behind that one: what a look sends is the next round's to carry. None where the round is over.
    pub fn next_of_round(&self, last: Move) -> Option<Move>
        ensures { IfSome result (MayFollow self.now) }
    {
        match last {
            Move::Round | Move::Call(_, Call::Carry) => self.next_carry(),
            _ => self.next_look(),
        }
    }

    // Whether a link is lost.
    pub fn is_lost(&self) -> bool
        ensures { result ≡ (self.now.pair.desk.link.lost || self.now.pair.chip.link.lost) }
    {
        self.pair.desk.link.lost || self.pair.chip.link.lost
    }

    // Whether nothing is on its way, nothing waits, and nothing is owed.
    pub fn is_settled(&self) -> bool
        ensures { IsTrue result ↔ (IsSettled self.now.pair.desk × IsSettled self.now.pair.chip) }
    {
        self.pair.desk.is_settled() && self.pair.chip.is_settled()
    }
}
