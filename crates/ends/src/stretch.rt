// Stretches: what is promised of two ends (docs/AUDIT.md) is promised within one. It begins when both ends are fresh and nothing is on its
// way between them, and is over when an end becomes fresh again. From then on nothing is promised, until the next begins.

#[derive(Clone, Copy, PartialEq, Eq)]
pub enum Phase {
    // The ends have not started.
    Unset,
    // The first stretch, or a later one.
    First,
    Later,
    // A stretch in which a frame became one that step 1 does not refuse: nothing is promised of it either.
    Forged,
    // A stretch is over, and no other has begun.
    Outside,
}

// number: how many have begun since both ends started.
#[derive(Clone, Copy)]
pub struct Stretch {
    pub phase: Phase,
    pub number: u64,
}

impl Stretch {
    ghost use Rattle.std.specs.Prelude.{◌≡◌};
    ghost use Rattle.ends.specs.declared.stretch.Phase.TheVariants.{Unset};

    pub(crate) fn unset() -> Stretch
        ensures { result.phase ≡ Unset }
    {
        Stretch {
            phase: Phase::Unset,
            number: 0,
        }
    }

    pub(crate) fn first() -> Stretch {
        Stretch {
            phase: Phase::First,
            number: 1,
        }
    }

    // Behind a move, by which an end may have become fresh: a stretch is over, or begins where both ends are ready for it.
    pub(crate) fn advance(&mut self, is_fresh: bool, are_ready: bool) {
        if is_fresh {
            self.phase = Phase::Outside;
        }
        if self.phase == Phase::Outside && are_ready {
            self.phase = Phase::Later;
            self.number = self.number.wrapping_add(1);
        }
    }

    // A frame has become one that step 1 does not refuse.
    pub(crate) fn forge(&mut self) {
        if self.phase != Phase::Outside {
            self.phase = Phase::Forged;
        }
    }
}
