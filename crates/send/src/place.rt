// Where a packet stands: R5.1, R5.4 to R5.7.
ghost use Rattle.std.specs.Prelude.{◌≡◌, ◌≤◌, ◌<◌};
ghost use Rattle.state.specs.State.{slot_of, length_of, repeated_of};
ghost use Rattle.send.specs.Repeat.{part_of, data_sent, again};

use state::Link;

// A packet by its number, at an end whose window is one.
#[derive(Clone, Copy)]
pub(crate) struct Place {
    pub(crate) link: Link,
    pub(crate) number: u8,
    ghost window: { (1 ≤ link.settings.window) × (link.settings.window ≤ 2) },
}

impl Place {
    pub(crate) fn slot(self) -> usize
        ensures { (result ≡ slot_of self.link self.number) × (result < 2) }
    {
        state::slot_of(self.link, self.number)
    }

    // Where in the slot buffer its slot begins.
    pub(crate) fn part_of(self) -> usize
        ensures { result ≡ part_of self.link self.number }
    {
        self.slot() * state::limit(self.link.settings)
    }

    pub(crate) fn length_of(self) -> usize
        ensures { result ≡ length_of self.link self.number }
    {
        usize::from(self.link.lengths[self.slot()])
    }

    // R12.5: indexed by the slot.
    pub(crate) fn repeated_of(self) -> u8
        ensures { result ≡ repeated_of self.link self.number }
    {
        self.link.repeated[self.slot()]
    }

    // The state once its frame is sent, for so many times by now.
    pub(crate) fn sent(self, ms: u32, count: u8) -> Link
        ensures { result ≡ data_sent self.link self.number ms count }
    {
        let slot = self.slot();
        let mut l = self.link;
        l.starts[slot] = ms;
        l.repeated[slot] = count;
        l.acking = false;
        l
    }

    pub(crate) fn sent_again(self, ms: u32) -> Link
        requires { repeated_of self.link self.number < 255 }
        ensures { result ≡ again self.link self.number ms }
    {
        self.sent(ms, self.repeated_of() + 1)
    }
}
