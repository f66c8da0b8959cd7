// What an end sends: submit, and the one maker of a repeat, of a control ACK and of a control NAK.
#![tactic(auto)]

ghost use Rattle.std.specs.Prelude.{◌≡◌, ◌+◌, ◌≤◌, ◌<◌, length};
ghost use Rattle.base.specs.Answer.{answer_of};
ghost use Rattle.base.specs.Buffer.{put};
ghost use Rattle.state.specs.Bounds.{limit_of};
ghost use Rattle.state.specs.Gate.{after};
ghost use Rattle.frame.specs.Bytes.{Written};
ghost use Rattle.send.specs.Repeat.{part_of, may_repeat, Ready};
ghost use Rattle.send.specs.Makers.{sending, repeat_frame, sends_repeat, ack_stopped, sends_ack, marked, sends_nak};
ghost use Rattle.send.specs.Submit.{submit_gate, sent_first, first_frame, packet_accepted, Acceptable, submitted};

mod place;

use base::answer::Refusal;
use base::{answer, buffer};
use place::Place;
use state::{Link, Outcome};

// A state, and the length of the frame that was sent with it.
// Stays: 0 for none, as `sends` and `silent` say it, and R1.5 of a call.
#[derive(Clone, Copy)]
pub struct Sent {
    pub state: Link,
    pub sent: u16,
}

// What a call tells whose frame, if any, was made by a maker below: no packet is dropped.
pub fn conclude(s: Sent, answer: u8, delivered: u16) -> Outcome
    ensures { result ≡ record { state = s.state; sent = s.sent; delivered = delivered; dropped = 0; answer = answer } }
{
    Outcome {
        sent: s.sent,
        delivered,
        ..state::answer_only(s.state, answer)
    }
}

// ---- a repeat

// Whether a packet may be sent once more: its count is below TRANS_REPEAT.
pub fn may_repeat(l: Link, number: u8) -> bool
    requires { (1 ≤ l.settings.window) × (l.settings.window ≤ 2) }
    ensures { result ≡ may_repeat l number }
{
    Place { link: l, number }.repeated_of() < l.settings.repeats
}

// The packet is read from its slot at each repeat: no frame is kept.
fn write_again(place: Place, slots: &[u8], frame: &mut [u8]) -> u16
    requires { Ready place.link place.number (length slots.now) (length frame.old) }
    ensures { Written (repeat_frame place.link slots.now place.number) frame.old frame.new result }
{
    let part = place.part_of();
    let end = part + place.length_of();
    let acknowledged = state::last_correct(place.link);
    frame::write_data(
        place.link.settings.format,
        frame,
        place.number,
        acknowledged,
        &slots[part..end],
    )
}

// Sends the frame of a waiting packet once more.
pub fn repeat(l: Link, slots: &[u8], frame: &mut [u8], ms: u32, number: u8) -> Sent
    requires { Ready l number (length slots.now) (length frame.old) }
    ensures { sending result frame.new ≡ sends_repeat l slots.now frame.old ms number }
{
    let place = Place { link: l, number };
    let sent = write_again(place, slots, frame);
    let state = place.sent_again(ms);
    Sent { state, sent }
}

// ---- control frames

fn stop_acknowledging(l: Link) -> Link
    ensures { result ≡ ack_stopped l }
{
    Link { acking: false, ..l }
}

// Sends a control ACK of the last correct number.
pub fn send_ack(l: Link, frame: &mut [u8]) -> Sent
    requires { 5 ≤ length frame.old }
    ensures { sending result frame.new ≡ sends_ack l frame.old }
{
    let sent = frame::write_ack(l.settings.format, frame, state::last_correct(l));
    let state = stop_acknowledging(l);
    Sent { state, sent }
}

fn mark(l: Link) -> Link
    ensures { result ≡ marked l }
{
    Link { nakmark: true, ..l }
}

// Sends a control NAK, unless one was sent since the last delivery.
pub fn send_nak(l: Link, frame: &mut [u8]) -> Sent
    requires { 5 ≤ length frame.old }
    ensures { sending result frame.new ≡ sends_nak l frame.old }
{
    if l.nakmark {
        return Sent { state: l, sent: 0 };
    }
    let sent = frame::write_nak(l.settings.format, frame, (state::last_correct(l) + 1) % 4);
    let state = mark(l);
    Sent { state, sent }
}

// ---- submit

#[tactic(auto, unfolding(crate::specs::Submit::submit_gate))]
fn submit_gate(l: Link, slots: usize, frame: usize, packet: usize) -> Result<(), Refusal>
    ensures { answer_of result ≡ submit_gate l slots frame packet }
{
    state::gate(l, slots, frame)?;
    if packet < 1 || state::limit(l.settings) < packet {
        return Err(Refusal::PacketSize);
    }
    if l.settings.window <= l.waiting {
        return Err(Refusal::WindowFull);
    }
    Ok(())
}

// R12.2: the part that is lent on to the copier is m bytes, from where the slot begins.
fn store(place: Place, slots: &mut [u8], packet: &[u8])
    requires { (length packet.now ≤ limit_of place.link.settings) × (part_of place.link place.number + limit_of place.link.settings ≤ length slots.old) }
    ensures { slots.new ≡ put slots.old (part_of place.link place.number) packet.now }
{
    let at = place.part_of();
    let end = at + state::limit(place.link.settings);
    buffer::copy_at(&mut slots[at..end], 0, packet);
}

fn write_first(l: Link, frame: &mut [u8], packet: &[u8]) -> u16
    requires { (l.next ≤ 3) × (length packet.now + 5 ≤ length frame.old) × (length packet.now ≤ 1019) }
    ensures { Written (first_frame l packet.now) frame.old frame.new result }
{
    frame::write_data(
        l.settings.format,
        frame,
        l.next,
        state::last_correct(l),
        packet,
    )
}

// One more packet waits, of so many bytes.
fn send_first(place: Place, ms: u32, packet: u16) -> Link
    requires { (place.number ≡ place.link.next) × (place.link.next ≤ 3) × (place.link.waiting < 2) }
    ensures { result ≡ sent_first place.link ms packet }
{
    let slot = place.slot();
    let mut l = place.sent(ms, 0);
    l.lengths[slot] = packet;
    l.next = (l.next + 1) % 4;
    l.waiting += 1;
    l
}

fn accept(l: Link, slots: &mut [u8], frame: &mut [u8], ms: u32, packet: &[u8]) -> Outcome
    requires { Acceptable l (length slots.old) (length frame.old) (length packet.now) }
    ensures { after result slots.new frame.new ≡ packet_accepted l slots.old frame.old ms packet.now }
{
    let place = Place {
        link: l,
        number: l.next,
    };
    store(place, slots, packet);
    let sent = write_first(l, frame, packet);
    let state = send_first(place, ms, packet.len() as u16);
    conclude(Sent { state, sent }, answer::DONE, 0)
}

// Takes a packet, if nothing stands against it, and sends its frame.
#[tactic(auto, unfolding(crate::specs::Submit::submitted))]
pub fn submit(l: Link, slots: &mut [u8], frame: &mut [u8], ms: u32, packet: &[u8]) -> Outcome
    ensures { after result slots.new frame.new ≡ submitted l slots.old frame.old ms packet.now }
{
    match submit_gate(l, slots.len(), frame.len(), packet.len()) {
        Ok(()) => accept(l, slots, frame, ms, packet),
        Err(refusal) => state::answer_only(l, refusal.number()),
    }
}
