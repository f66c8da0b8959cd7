// take: what a received frame does, R4.
#![tactic(auto)]

ghost use Rattle.std.specs.Prelude.{◌≡◌, true, false, ◌+◌, ◌≤◌, ◌<◌, length};
ghost use Rattle.base.specs.Answer.{done};
ghost use Rattle.frame.specs.Steps.{acknowledged_in};
ghost use Rattle.state.specs.Gate.{after, gate_of};
ghost use Rattle.state.specs.Formed.{Usable};
ghost use Rattle.send.specs.Makers.{sending, silent, sends_ack};
ghost use Rattle.send.specs.Repeat.{Ready};
ghost use Rattle.receive.specs.Steps.{freed, repeatable, after_step6, after_delivery};
ghost use Rattle.receive.specs.Take.{refused_with_nak, repeated_or, nak_obeyed, data_delivered, data_passed, data_taken, obeyed, frame_taken};

use base::answer;
use base::answer::Refusal;
use frame::Heard;
use send::Sent;
use state::{Link, Outcome};

// Stays: l, slots, frame and ms are parameters here and in clock, and what the gate has found is asked for by each function behind it. A
// struct of them that holds it was tried: what is in it is lent, so a contract reads `call.entry.slots.now` for `slots.now`, and
// `call.exit.1.now` for `frame.new`. A data frame's numbers stay apart too, as `data_taken` has them, and so do `acknowledged` and `repeat`.

// ---- step 6: R4.6

fn free(l: Link, number: u8) -> Link
    requires { number ≤ 3 }
    ensures { result ≡ freed l number }
{
    Link {
        waiting: l.waiting.min(state::behind_number(l, number)),
        ..l
    }
}

fn is_repeatable(l: Link, number: u8) -> bool
    requires { (number ≤ 3) × (1 ≤ l.settings.window) × (l.settings.window ≤ 2) }
    ensures { result ≡ repeatable l number }
{
    let behind = state::behind_number(l, number);
    behind < l.waiting && send::may_repeat(l, number)
}

fn obey_acknowledgement(l: Link, nak: bool, number: u8) -> Link
    requires { number ≤ 3 }
    ensures { result ≡ after_step6 l nak number }
{
    if nak { l } else { free(l, number) }
}

// ---- step 7: R4.7

fn deliver(l: Link, ms: u32) -> Link
    requires { l.expected ≤ 3 }
    ensures { result ≡ after_delivery l ms }
{
    Link {
        expected: (l.expected + 1) % 4,
        nakmark: false,
        acking: true,
        ackstart: if l.acking { l.ackstart } else { ms },
        ..l
    }
}

fn deliver_data(
    sixth: Link,
    slots: &[u8],
    frame: &mut [u8],
    ms: u32,
    acknowledged: u8,
    repeat: bool,
    len: u16,
) -> Outcome
    requires { (sixth.expected ≤ 3) × (repeat ≡ true → Ready sixth acknowledged (length slots.now) (length frame.old)) }
    ensures { after result slots.now frame.new ≡ data_delivered sixth slots.now frame.old ms acknowledged repeat len }
{
    let seventh = deliver(sixth, ms);
    let sent = if repeat {
        send::repeat(seventh, slots, frame, ms, acknowledged)
    } else {
        Sent {
            state: seventh,
            sent: 0,
        }
    };
    send::conclude(sent, answer::DONE, len)
}

fn pass_data(
    sixth: Link,
    slots: &[u8],
    frame: &mut [u8],
    ms: u32,
    acknowledged: u8,
    repeat: bool,
) -> Outcome
    requires { (5 ≤ length frame.old) × (repeat ≡ true → Ready sixth acknowledged (length slots.now) (length frame.old)) }
    ensures { after result slots.now frame.new ≡ data_passed sixth slots.now frame.old ms acknowledged repeat }
{
    let sent = if repeat {
        send::repeat(sixth, slots, frame, ms, acknowledged)
    } else {
        send::send_ack(sixth, frame)
    };
    send::conclude(sent, Refusal::Unexpected.number(), 0)
}

#[tactic(auto, unfolding(crate::specs::Take::data_taken))]
fn take_data(
    l: Link,
    slots: &[u8],
    frame: &mut [u8],
    ms: u32,
    number: u8,
    nak: bool,
    acknowledged: u8,
    len: u16,
) -> Outcome
    requires { (gate_of l (length slots.now) (length frame.old) ≡ done) × Usable l (length frame.old) × (acknowledged ≤ 3) }
    ensures { after result slots.now frame.new ≡ data_taken l slots.now frame.old ms number nak acknowledged len }
{
    // Step 6 decides on a repeat; its frame is made of the state after step 7.
    let repeat = nak & is_repeatable(l, acknowledged);
    let sixth = obey_acknowledgement(l, nak, acknowledged);
    if number == l.expected {
        return deliver_data(sixth, slots, frame, ms, acknowledged, repeat, len);
    }
    pass_data(sixth, slots, frame, ms, acknowledged, repeat)
}

// ---- all steps

fn refuse(l: Link, slots: &[u8], frame: &mut [u8], h: Heard) -> Outcome
    requires { 5 ≤ length frame.old }
    ensures { after result slots.now frame.new ≡ refused_with_nak l slots.now frame.old h }
{
    let sent = send::send_nak(l, frame);
    send::conclude(sent, answer::told(frame::refusal(h)), 0)
}

fn obey_nak(l: Link, slots: &[u8], frame: &mut [u8], ms: u32, number: u8) -> Outcome
    requires { (gate_of l (length slots.now) (length frame.old) ≡ done) × Usable l (length frame.old) × (number ≤ 3) }
    ensures { after result slots.now frame.new ≡ nak_obeyed l slots.now frame.old ms number }
{
    if is_repeatable(l, number) {
        let sent = send::repeat(l, slots, frame, ms, number);
        return send::conclude(sent, answer::DONE, 0);
    }
    state::answer_only(l, answer::DONE)
}

#[tactic(auto, unfolding(crate::specs::Take::obeyed))]
fn obey(l: Link, slots: &[u8], frame: &mut [u8], ms: u32, h: Heard) -> Outcome
    requires { (gate_of l (length slots.now) (length frame.old) ≡ done) × Usable l (length frame.old) × (acknowledged_in h ≤ 3) }
    ensures { after result slots.now frame.new ≡ obeyed l slots.now frame.old ms h }
{
    match h {
        Heard::Size | Heard::Sum | Heard::Code | Heard::Length => refuse(l, slots, frame, h),
        Heard::ControlSize => state::answer_only(l, answer::told(frame::refusal(h))),
        Heard::Reset => state::become_fresh(l, 0),
        Heard::Ack(number) => state::answer_only(free(l, number), answer::DONE),
        Heard::Nak(number) => obey_nak(l, slots, frame, ms, number),
        Heard::Data {
            number,
            nak,
            acknowledged,
            length,
        } => take_data(l, slots, frame, ms, number, nak, acknowledged, length),
    }
}

// R1.3: obeys a received frame, and sends at most one.
#[tactic(auto, unfolding(crate::specs::Take::frame_taken))]
pub fn take(l: Link, slots: &[u8], frame: &mut [u8], ms: u32, received: &[u8]) -> Outcome
    ensures { after result slots.now frame.new ≡ frame_taken l slots.now frame.old ms received.now }
{
    match state::gate(l, slots.len(), frame.len()) {
        Ok(()) => obey(
            l,
            slots,
            frame,
            ms,
            frame::hear(l.settings.format, received),
        ),
        Err(refusal) => state::answer_only(l, refusal.number()),
    }
}
