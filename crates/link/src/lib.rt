// An end of the link: the six calls of R1.3, each with all that it promises. None of them requires anything.
#![tactic(auto)]

ghost use Rattle.std.specs.Prelude.{◌≡◌, length};
ghost use Rattle.state.specs.Gate.{after};
ghost use Rattle.state.specs.Calls.{started, resynchronised};
ghost use Rattle.send.specs.Submit.{submitted};
ghost use Rattle.receive.specs.Take.{frame_taken};
ghost use Rattle.clock.specs.Look.{looked, acknowledged_now};

use clock::Looked;
use state::{Link, Outcome, Settings};

// R5.2: a fresh end of these settings, or the state of zeros.
pub fn start(s: Settings, slots: &[u8]) -> Outcome
    ensures { result ≡ started s (length slots.now) }
{
    state::start(s, slots)
}

// R5.4 to R5.6: takes a packet to be sent, while fewer than WIN_SIZE wait.
pub fn submit(l: Link, slots: &mut [u8], frame: &mut [u8], ms: u32, packet: &[u8]) -> Outcome
    ensures { after result slots.new frame.new ≡ submitted l slots.old frame.old ms packet.now }
{
    send::submit(l, slots, frame, ms, packet)
}

// R4: obeys a received frame. The packet that it delivers is in `received`, from byte 3 on.
pub fn take(l: Link, slots: &[u8], frame: &mut [u8], ms: u32, received: &[u8]) -> Outcome
    ensures { after result slots.now frame.new ≡ frame_taken l slots.now frame.old ms received.now }
{
    receive::take(l, slots, frame, ms, received)
}

// R6.2: serves the first timer that is due at this millisecond.
pub fn look(l: Link, slots: &[u8], frame: &mut [u8], ms: u32) -> Looked
    ensures { after result slots.now frame.new ≡ looked l slots.now frame.old ms }
{
    clock::look(l, slots, frame, ms)
}

// R6.4: sends the acknowledgement that is owed, before its timer is due.
pub fn acknowledge(l: Link, slots: &[u8], frame: &mut [u8], ms: u32) -> Outcome
    ensures { after result slots.now frame.new ≡ acknowledged_now l slots.now frame.old }
{
    clock::acknowledge(l, slots, frame, ms)
}

// R5.9: makes this end fresh, dropping what waits, and sends the reset for the other: the way out of a lost link.
pub fn resynchronise(l: Link, slots: &[u8], frame: &mut [u8], ms: u32) -> Outcome
    ensures { after result slots.now frame.new ≡ resynchronised l slots.now frame.old }
{
    state::resynchronise(l, slots, frame, ms)
}
