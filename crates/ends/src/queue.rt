// Frames on their way to an end, the first to arrive at the front.
ghost use Rattle.std.specs.Prelude.{◌+◌, ◌≤◌};

use crate::bytes::Bytes;
use crate::end::PLACES;

// For as many, and eight more: as frames arrive, those that are left come nearer to the room's end, and are moved back to its beginning
// when they reach it.
const ROOM: usize = 72;

// from, to: where in the room they are.
// Stays: an array with marks; an `ArrayVec` moves all that are behind a frame that arrives, and is not Copy.
#[derive(Clone, Copy)]
pub(crate) struct Queue {
    room: [Bytes; ROOM],
    from: usize,
    to: usize,
    ghost within: { (from ≤ to) × (to ≤ 72) },
    ghost fits: { to ≤ from + 64 },
}

impl Queue {
    ghost use Rattle.std.specs.Prelude.{◌≡◌, ◌++◌, ◌<◌, ◌↔◌, [], ◌∷◌, length, remove, slice_set, IsTrue, if◌then◌else◌};
    ghost use Rattle.ends.specs.Queue.{frames_of};

    pub(crate) fn new() -> Queue
        ensures { frames_of result ≡ [] }
    {
        Queue {
            room: [Bytes::empty(); ROOM],
            from: 0,
            to: 0,
        }
    }

    pub(crate) fn as_slice(&self) -> &[Bytes]
        ensures { result.now ≡ frames_of self.now }
    {
        &self.room[self.from..self.to]
    }

    pub(crate) fn clear(&mut self)
        ensures { frames_of self.new ≡ [] }
    {
        self.from = 0;
        self.to = 0;
    }

    // At least eight places are free behind them then.
    fn move_back(&mut self)
        ensures same { frames_of self.new ≡ frames_of self.old }
        ensures free { self.new.to + 8 ≤ 72 }
    {
        self.room.copy_within(self.from..self.to, 0);
        self.to -= self.from;
        self.from = 0;
    }

    // Behind the others, where there are not so many already.
    #[tactic(auto, using(crate::proofs::Windows::stored_behind))]
    pub(crate) fn push(&mut self, frame: Bytes) -> bool
        ensures places { IsTrue result ↔ (length (frames_of self.old) < 64) }
        ensures frames { frames_of self.new ≡ (if result then frames_of self.old ++ frame ∷ [] else frames_of self.old) }
    {
        if self.to - self.from == PLACES {
            return false;
        }
        if self.to == ROOM {
            self.move_back();
        }
        self.room[self.to] = frame;
        self.to += 1;
        true
    }

    // The first has arrived, if there is one. Where none is left the next has the first place, so that the same memory stays in use.
    pub(crate) fn pop(&mut self)
        ensures { frames_of self.new ≡ remove (frames_of self.old) 0 }
    {
        if self.from < self.to {
            self.from += 1;
        }
        if self.from == self.to {
            self.clear();
        }
    }

    // Frame n goes, from 0 on, if it is there.
    pub(crate) fn remove(&mut self, n: usize)
        ensures { frames_of self.new ≡ remove (frames_of self.old) n }
    {
        if n < self.to - self.from {
            let at = self.from + n;
            self.room.copy_within(at + 1..self.to, at);
            self.to -= 1;
        }
    }

    // Frame n becomes that one, if it is there.
    #[tactic(auto, using(crate::proofs::Windows::stored_among))]
    pub(crate) fn replace(&mut self, n: usize, frame: Bytes)
        ensures { frames_of self.new ≡ slice_set (frames_of self.old) n frame }
    {
        if n < self.to - self.from {
            self.room[self.from + n] = frame;
        }
    }
}
