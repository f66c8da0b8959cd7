// What to copy: the settings, the lengths of the buffers, one turn of the loop at an end, and what becomes of a packet that it delivers.
// docs/USE.md prints it, and says what a caller must add: pauses and an end of trying where the link is lost, and what 10 and 15 ask for.
use base::answer;
use base::buffer::part;
use chain::{Joined, Joining};
use frame::{Format, Heard};
use state::{Link, Outcome, Settings};

// D, that is DATA_REG_LEN
const FRAME: usize = 277;

// WIN_SIZE
const WINDOW: usize = 2;

// m
const PACKET: usize = FRAME - 5;

const SLOTS: usize = WINDOW * PACKET;

// The longest message has as many bytes, whatever the settings.
const ROOM: usize = 4096;

// Milliseconds, and TRANS_REPEAT, for a bus of 400 kHz. The other end needs the same.
const SETTINGS: Settings = Settings {
    format: Format {
        d: FRAME as u16,
        order: frame::LOW_FIRST,
    },
    transtimeout: 100,
    acktimeout: 50,
    window: WINDOW as u8,
    repeats: 3,
};

// An end: all that its last call gave, its state in it; how many packets of the message are taken; whether the end was made fresh, so that
// what came in before is to be thrown away; its slots, and the frame that it sends.
#[derive(Drop)]
pub struct End {
    pub last: Outcome,
    pub taken: u32,
    pub renewed: bool,
    slots: [u8; SLOTS],
    frame: [u8; FRAME],
}

impl End {
    // A start that is refused leaves a state to which every turn answers 1.
    pub fn start() -> Self {
        let slots = [0; SLOTS];
        End {
            last: link::start(SETTINGS, &slots),
            taken: 0,
            renewed: true,
            slots,
            frame: [0; FRAME],
        }
    }

    // To begin, and where the peer's program does not answer in time: both ends are to be fresh. The frame is to be sent.
    pub fn renew(&mut self, ms: u32) {
        self.last = link::resynchronise(self.last.state, &self.slots, &mut self.frame, ms);
        self.taken = 0;
        self.renewed = true;
    }

    // What is to be sent.
    pub fn sent(&self) -> &[u8] {
        part(&self.frame, 0, usize::from(self.last.sent))
    }
}

impl End {
    // What has arrived comes first, since it may make room for the packet; a lost end would not hear it. In a hurry: the peer has more to
    // send, and should not wait for our timer.
    fn one_call(&mut self, ms: u32, received: &[u8], packet: &[u8], hurry: bool) -> Outcome {
        let l = self.last.state;
        if l.lost {
            return link::resynchronise(l, &self.slots, &mut self.frame, ms);
        }
        if !received.is_empty() {
            return link::take(l, &self.slots, &mut self.frame, ms, received);
        }
        if !packet.is_empty() && l.waiting < l.settings.window {
            return link::submit(l, &mut self.slots, &mut self.frame, ms, packet);
        }
        if hurry && l.acking {
            return link::acknowledge(l, &self.slots, &mut self.frame, ms);
        }
        link::look(l, &self.slots, &mut self.frame, ms).outcome
    }
}

fn is_reset(received: &[u8]) -> bool {
    matches!(frame::hear(SETTINGS.format, received), Heard::Reset)
}

// A turn that is done makes a lost end fresh, and so does a reset that comes in. `dropped` does not show it: it is 0 if nothing waited.
fn is_renewed(before: Link, received: &[u8], answer: u8) -> bool {
    (before.lost || is_reset(received)) && answer == answer::DONE
}

impl End {
    // Only a submit that is done makes more packets wait. At an end that is fresh again the message begins again; what it had taken may have
    // arrived, so the message needs a number in it, by which the other side's program knows it.
    fn count(&self, before: Link) -> u32 {
        if self.renewed {
            return 0;
        }
        let more = before.waiting < self.last.state.waiting;
        self.taken.wrapping_add(u32::from(more))
    }

    // Once round the loop. The message is the same in every turn until the peer's program has answered it, then b"", and `taken` is set to 0
    // with each new one. Where all its packets are taken (16), or there is none (13), cut gives 0 bytes; so it does of one that is too long.
    pub fn serve(&mut self, ms: u32, received: &[u8], message: &[u8], hurry: bool) {
        let mut packet = [0; PACKET];
        let piece = chain::cut(PACKET as u16, message, self.taken, &mut packet);
        let next = part(&packet, 0, usize::from(piece.length));
        let before = self.last.state;
        self.last = self.one_call(ms, received, next, hurry);
        self.renewed = is_renewed(before, received, self.last.answer);
        self.taken = self.count(before);
    }
}

// A message that comes in: what is joined of it, in its room.
#[derive(Drop)]
pub struct Incoming {
    pub joining: Joining,
    pub room: [u8; ROOM],
}

impl Incoming {
    pub fn new() -> Self {
        Incoming {
            joining: chain::fresh_joining(),
            room: [0; ROOM],
        }
    }

    fn joined(&mut self, end: &End, received: &[u8]) -> Joined {
        let delivered = usize::from(end.last.delivered);
        if end.renewed {
            return nothing_joined(chain::fresh_joining());
        }
        if delivered == 0 {
            return nothing_joined(self.joining);
        }
        let packet = part(received, 3, delivered);
        chain::join(PACKET as u16, self.joining, packet, &mut self.room)
    }

    // For every turn, also where nothing was delivered: at an end that is fresh again no packet belongs to those of before. The peer must be
    // told of a `fault`; here it is not.
    pub fn join(&mut self, end: &End, received: &[u8]) -> Joined {
        let joined = self.joined(end, received);
        self.joining = joined.state;
        joined
    }
}

fn nothing_joined(state: Joining) -> Joined {
    Joined {
        state,
        length: 0,
        answer: answer::DONE,
        fault: 0,
    }
}
