// look and acknowledge: what the time does (R6.2 to R6.4).
#![tactic(auto)]

ghost use Rattle.std.specs.Prelude.{◌≡◌, ◌≤◌, ◌<◌, length};
ghost use Rattle.base.specs.Answer.{done};
ghost use Rattle.state.specs.State.{sent_before};
ghost use Rattle.state.specs.Gate.{after, gate_of};
ghost use Rattle.state.specs.Formed.{Usable};
ghost use Rattle.clock.specs.Look.{after_oldest, exhausted, served, acknowledged_if, looked_newer, looked_open, looked, acknowledged_now};

use base::answer;
use base::answer::Refusal;
use state::{Link, Outcome};

// look's answer: a type of its own, so that it can tell more than the other calls' do later, e.g. when the next timer is due (`looked`).
#[derive(Clone, Copy)]
pub struct Looked {
    pub outcome: Outcome,
}

// Stays: l, slots, frame and ms are parameters, as in receive, and for the same reason.

// ---- a due packet

fn after_oldest(l: Link) -> u8
    ensures { result ≡ after_oldest l }
{
    l.waiting.saturating_sub(1)
}

// R6.3: the one place where the link is lost. It is lent what sending needs, though it sends nothing.
fn lose(l: Link, slots: &[u8], frame: &mut [u8]) -> Outcome
    requires { 5 ≤ length frame.old }
    ensures { after result slots.now frame.new ≡ exhausted l slots.now frame.old }
{
    state::answer_only(Link { lost: true, ..l }, Refusal::LinkLost.number())
}

// R6.3: serves the packet that n were sent after.
fn serve(l: Link, slots: &[u8], frame: &mut [u8], ms: u32, n: u8) -> Outcome
    requires { (gate_of l (length slots.now) (length frame.old) ≡ done) × Usable l (length frame.old) × (n < l.waiting) }
    ensures { after result slots.now frame.new ≡ served l slots.now frame.old ms (sent_before l n) }
{
    let number = state::sent_before(l, n);
    if send::may_repeat(l, number) {
        let sent = send::repeat(l, slots, frame, ms, number);
        return send::conclude(sent, answer::DONE, 0);
    }
    lose(l, slots, frame)
}

// ---- the calls

fn acknowledge_if(l: Link, slots: &[u8], frame: &mut [u8], owed: bool) -> Outcome
    requires { 5 ≤ length frame.old }
    ensures { after result slots.now frame.new ≡ acknowledged_if owed l slots.now frame.old }
{
    if owed {
        let sent = send::send_ack(l, frame);
        return send::conclude(sent, answer::DONE, 0);
    }
    state::answer_only(l, answer::DONE)
}

fn look_newer(l: Link, slots: &[u8], frame: &mut [u8], ms: u32) -> Outcome
    requires { (gate_of l (length slots.now) (length frame.old) ≡ done) × Usable l (length frame.old) }
    ensures { after result slots.now frame.new ≡ looked_newer l slots.now frame.old ms }
{
    if state::is_packet_due(l, 0, ms) {
        return serve(l, slots, frame, ms, 0);
    }
    acknowledge_if(l, slots, frame, state::is_acknowledge_due(l, ms))
}

#[tactic(auto, unfolding(crate::specs::Look::looked_open))]
fn look_open(l: Link, slots: &[u8], frame: &mut [u8], ms: u32) -> Outcome
    requires { (gate_of l (length slots.now) (length frame.old) ≡ done) × Usable l (length frame.old) }
    ensures { after result slots.now frame.new ≡ looked_open l slots.now frame.old ms }
{
    let n = after_oldest(l);
    if state::is_packet_due(l, n, ms) {
        return serve(l, slots, frame, ms, n);
    }
    look_newer(l, slots, frame, ms)
}

// R6.2: serves the first timer that is due, if any.
#[tactic(auto, unfolding(crate::specs::Look::looked))]
pub fn look(l: Link, slots: &[u8], frame: &mut [u8], ms: u32) -> Looked
    ensures { after result slots.now frame.new ≡ looked l slots.now frame.old ms }
{
    let outcome = match state::gate(l, slots.len(), frame.len()) {
        Ok(()) => look_open(l, slots, frame, ms),
        Err(refusal) => state::answer_only(l, refusal.number()),
    };
    Looked { outcome }
}

// R6.4: sends the acknowledgement that is owed, if any.
#[tactic(auto, unfolding(crate::specs::Look::acknowledged_now))]
pub fn acknowledge(l: Link, slots: &[u8], frame: &mut [u8], _ms: u32) -> Outcome
    ensures { after result slots.now frame.new ≡ acknowledged_now l slots.now frame.old }
{
    match state::gate(l, slots.len(), frame.len()) {
        Ok(()) => acknowledge_if(l, slots, frame, l.acking),
        Err(refusal) => state::answer_only(l, refusal.number()),
    }
}
