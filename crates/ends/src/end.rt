// An end, and what is on its way to it.
use crate::bytes::{Bytes, LONGEST};
use crate::hearing::Hearing;
use crate::moves::{Call, Event};
use crate::queue::Queue;
use base::answer::Refusal;
use base::buffer::part;
use state::{Link, Outcome, Settings};

// The most frames that are on their way to an end.
pub const PLACES: usize = 64;

// Two slots of the longest packet, and more.
const SLOTS: usize = 2048;

// How many packets an end took and delivered since it was fresh.
#[derive(Clone, Copy, PartialEq, Eq, Default)]
pub struct Count {
    pub taken: usize,
    pub delivered: usize,
}

// dropped: how many of all packets that it ever took a reset has dropped.
#[derive(Clone, Copy)]
pub struct End {
    pub link: Link,
    pub count: Count,
    pub dropped: u64,
    slots: [u8; SLOTS],
    queue: Queue,
}

// For the longest frame.
type Room = [u8; LONGEST];

// So many bytes from `at` on; nothing where they are none.
fn some_of(frame: &[u8], at: usize, count: u16) -> Option<Bytes> {
    match count {
        0 => None,
        _ => Bytes::new(part(frame, at, usize::from(count))),
    }
}

// What waited and was taken waits still, or was freed by an acknowledgement, or dropped by a reset.
fn freed(waited: u8, took: bool, o: Outcome) -> u8 {
    let known = waited.wrapping_add(u8::from(took));
    known.wrapping_sub(o.state.waiting.wrapping_add(o.dropped))
}

impl End {
    ghost use Rattle.std.specs.Prelude.{◌≡◌};
    ghost use Rattle.base.specs.Answer.{answer_of};
    ghost use Rattle.ends.specs.Sides.{arriving_at, IsUnset};
    ghost use Rattle.state.specs.Calls.{zeros, started};

    pub(crate) fn unset() -> End
        ensures { IsUnset result }
    {
        End {
            link: state::zero_state(),
            count: Count::default(),
            dropped: 0,
            slots: [0; SLOTS],
            queue: Queue::new(),
        }
    }

    // As before any start; what is in the slots stays, and no call reads it.
    pub(crate) fn unstart(&mut self)
        ensures { IsUnset self.new }
    {
        self.link = state::zero_state();
        self.count = Count::default();
        self.dropped = 0;
        self.queue.clear();
    }

    // The frames on their way to the end, the first to arrive at the front.
    pub fn arriving(&self) -> &[Bytes]
        ensures { result.now ≡ arriving_at self.now }
    {
        self.queue.as_slice()
    }

    // Starts anew, with nothing on its way; gives why the start refuses, where it does.
    #[tactic(auto, unfolding(state::specs::Calls::started))]
    pub(crate) fn start(&mut self, s: Settings) -> Result<(), Refusal>
        ensures link { self.new.link ≡ (started s 2048).state }
        ensures answer { answer_of result ≡ (started s 2048).answer }
    {
        let o = link::start(s, &self.slots);
        self.link = o.state;
        self.count = Count::default();
        self.dropped = 0;
        self.queue.clear();
        match Refusal::try_from(o.answer) {
            Ok(refusal) => Err(refusal),
            Err(_) => Ok(()),
        }
    }

    // Nothing changes a fresh end but what it takes, what it delivers, and its NAK.
    pub(crate) fn is_ready(&self) -> bool {
        self.count == Count::default() && self.arriving().is_empty() && !self.link.nakmark
    }

    // ---- calls

    // The frame that is carried next; no bytes where there is none.
    fn next_frame(&self) -> &[u8] {
        match self.arriving().first() {
            Some(frame) => frame.as_slice(),
            None => &[],
        }
    }

    // An end that resynchronises becomes fresh by its own reset.
    fn hearing(&self, call: Call) -> Hearing {
        match call {
            Call::Carry => Hearing::of(self.link.settings.format, self.next_frame()),
            Call::Resynchronise => Hearing::Reset,
            _ => Hearing::Other,
        }
    }

    fn outcome(&mut self, call: Call, frame: &mut Room, ms: u32, packet: &[u8]) -> Outcome {
        match call {
            Call::Submit => link::submit(self.link, &mut self.slots, frame, ms, packet),
            Call::Carry => link::take(self.link, &self.slots, frame, ms, self.next_frame()),
            Call::Look => link::look(self.link, &self.slots, frame, ms).outcome,
            Call::Acknowledge => link::acknowledge(self.link, &self.slots, frame, ms),
            Call::Resynchronise => link::resynchronise(self.link, &self.slots, frame, ms),
        }
    }

    // A packet is delivered from byte 3 of its frame on.
    fn event(&self, call: Call, o: Outcome, sent: Option<Bytes>, is_crowded: bool) -> Event {
        let refusal = Refusal::try_from(o.answer).ok();
        let took = call == Call::Submit && refusal.is_none();
        Event {
            delivered: some_of(self.next_frame(), 3, o.delivered),
            sent,
            heard: self.hearing(call),
            refusal,
            freed: freed(self.link.waiting, took, o),
            dropped: o.dropped,
            is_crowded,
            was_lost: self.link.lost,
        }
    }

    // A call that makes the end fresh takes and delivers nothing.
    fn keep_count(&mut self, call: Call, event: &Event) {
        if event.is_fresh() {
            self.count = Count::default();
            return;
        }
        if call == Call::Submit && event.refusal.is_none() {
            self.count.taken = self.count.taken.wrapping_add(1);
        }
        if event.delivered.is_some() {
            self.count.delivered = self.count.delivered.wrapping_add(1);
        }
    }

    // Makes the call; what was carried is on its way no more, and what is sent is on its way to the peer.
    pub(crate) fn call(&mut self, peer: &mut End, call: Call, ms: u32, packet: &[u8]) -> Event {
        let mut frame = [0u8; LONGEST];
        let o = self.outcome(call, &mut frame, ms, packet);
        let sent = some_of(&frame, 0, o.sent);
        let event = self.event(call, o, sent, !peer.expect(sent));
        self.link = o.state;
        self.dropped = self.dropped.wrapping_add(u64::from(o.dropped));
        self.keep_count(call, &event);
        if call == Call::Carry {
            self.queue.pop();
        }
        event
    }

    // ---- frames on their way to the end

    // What the peer sent is on its way, if it sent something; whether there is room for it.
    fn expect(&mut self, sent: Option<Bytes>) -> bool {
        match sent {
            Some(frame) => self.queue.push(frame),
            None => true,
        }
    }

    pub(crate) fn lose(&mut self, n: usize) {
        self.queue.remove(n);
    }

    // Whether frame n is there and has become one that step 1 does not refuse. More bytes than a frame can have leave it as it is.
    pub(crate) fn damage(&mut self, n: usize, bytes: &[u8]) -> bool {
        let is_there = n < self.arriving().len();
        if let Some(laid) = Bytes::new(bytes) {
            self.queue.replace(n, laid);
        }
        is_there && Hearing::of(self.link.settings.format, bytes).passes_step_1()
    }
}
