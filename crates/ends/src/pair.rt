// What there is one of at each end.
use crate::Side;

#[derive(Clone, Copy)]
pub struct Pair<T> {
    pub desk: T,
    pub chip: T,
}

impl<T> Pair<T> {
    ghost use Rattle.std.specs.Prelude.{◌≡◌};
    ghost use Rattle.std.specs.Borrow.{Lends, sem};
    ghost use Rattle.ends.specs.Sides.{of_side, with_side};
    ghost use Rattle.ends.specs.contracts.pair.Pair.{the_row};

    pub fn of(&self, side: Side) -> &T
        ensures { result.now ≡ of_side side self.now }
    {
        match side {
            Side::Desk => &self.desk,
            Side::Chip => &self.chip,
        }
    }

    pub fn of_mut(&mut self, side: Side) -> &mut T
        ensures value { result.now ≡ of_side side self.old }
        ensures* writes_back { sem 𝓛 (Lends (the_row T.row) T.row self.entry result (with_side side self.old)) }
    {
        match side {
            Side::Desk => &mut self.desk,
            Side::Chip => &mut self.chip,
        }
    }

    // What there is at that end, and at the other.
    pub(crate) fn both_mut(&mut self, side: Side) -> (&mut T, &mut T) {
        match side {
            Side::Desk => (&mut self.desk, &mut self.chip),
            Side::Chip => (&mut self.chip, &mut self.desk),
        }
    }
}
