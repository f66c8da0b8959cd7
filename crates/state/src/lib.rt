// What an end keeps (R2, R5): its settings and its state, when they are well formed, the gate 1, 2, 3 (R9.1), fresh, timers (R6); start and
// resynchronise.
#![tactic(auto)]

ghost use Rattle.std.specs.Prelude.{◌≡◌, ◌<◌, ◌≤◌, length};
ghost use Rattle.state.specs.Bounds.{limit_of, in_range, slots_need};
ghost use Rattle.state.specs.State.{last_correct, behind, sent_before, slot_of, start_of, length_ok, numbers_ok, well_formed, fresh_of, renewed};
ghost use Rattle.state.specs.Gate.{after, only, entry_of, gate_of};
ghost use Rattle.base.specs.Answer.{answer_of};
ghost use Rattle.state.specs.Timer.{elapsed, left, due, packet_due, acknowledge_due, packet_left, acknowledge_left, time_left};
ghost use Rattle.state.specs.Calls.{zeros, started, became_fresh, reset_sent, resynchronised};

use base::answer;
use base::answer::Refusal;
use frame::Format;

// R2.1
#[derive(Clone, Copy, Default)]
pub struct Settings {
    pub format: Format,
    pub transtimeout: u16,
    pub acktimeout: u16,
    pub window: u8,
    pub repeats: u8,
}

// R5.1
// Stays: three arrays side by side, as R12.5 has them, and flags; `fresh_of` and `well_formed` speak of each.
#[derive(Clone, Copy, Default)]
pub struct Link {
    pub settings: Settings,
    pub starts: [u32; 2],
    pub ackstart: u32,
    pub lengths: [u16; 2],
    pub repeated: [u8; 2],
    pub next: u8,
    pub expected: u8,
    pub waiting: u8,
    pub acking: bool,
    pub nakmark: bool,
    pub lost: bool,
}

// R1.5
// Stays: lengths that are 0 where nothing is sent or delivered, and the answer's number, as `started`, `submitted` and `frame_taken` say them.
#[derive(Clone, Copy)]
pub struct Outcome {
    pub state: Link,
    pub sent: u16,
    pub delivered: u16,
    pub answer: u8,
    pub dropped: u8,
}

// ---- numbers and slots
//
// Stays: a window of 1 or 2, and a number of at most 3, are asked for here and below. slot_of, sent_before, behind_number and is_packet_due,
// which STATEMENTS names with that, take a Link and a u8; a type for the five functions under them would be made anew in each of these.

// The number of the last data frame that was delivered.
pub fn last_correct(l: Link) -> u8
    ensures { (result ≡ last_correct l) × (result ≤ 3) }
{
    (l.expected % 4 + 3) % 4
}

// How many packets have been sent after the one of this number.
pub fn behind_number(l: Link, number: u8) -> u8
    requires { number ≤ 3 }
    ensures { result ≡ behind l number }
{
    (l.next % 4 + 7 - number) % 4
}

// The number of the packet that n have been sent after.
pub fn sent_before(l: Link, n: u8) -> u8
    requires { n ≤ 3 }
    ensures { (result ≡ sent_before l n) × (result ≤ 3) }
{
    (l.next % 4 + 3 - n) % 4
}

// The slot of the packet of this number.
pub fn slot_of(l: Link, number: u8) -> usize
    requires { 1 ≤ l.settings.window }
    ensures { (result ≡ slot_of l number) × (result < l.settings.window) }
{
    usize::from(number % l.settings.window)
}

// m (R2.2), and 0 where D is less than 5.
pub fn limit(s: Settings) -> usize
    ensures { result ≡ limit_of s }
{
    usize::from(s.format.d.saturating_sub(5))
}

// ---- well formed

// Stays: `contains` on ranges was tried; then an edit of a range is refused for want of a proof, and of no fact (order_of_two).
#[tactic(auto, unfolding(crate::specs::Bounds::in_range))]
fn in_range(s: Settings) -> bool
    ensures { result ≡ in_range s }
{
    ((16 <= s.format.d) & (s.format.d <= 1024))
        & ((1 <= s.window) & (s.window <= 2))
        & ((2 <= s.transtimeout) & (s.transtimeout <= 1000))
        & ((1 <= s.acktimeout) & (s.acktimeout < s.transtimeout))
        & ((1 <= s.repeats) & (s.repeats <= 4))
        & (s.format.order <= frame::HIGH_FIRST)
}

fn length_ok(l: Link, number: u8) -> bool
    requires { (1 ≤ l.settings.window) × (l.settings.window ≤ 2) }
    ensures { result ≡ length_ok l number }
{
    let slot = slot_of(l, number);
    (1..=limit(l.settings)).contains(&usize::from(l.lengths[slot]))
}

#[tactic(auto, unfolding(crate::specs::State::numbers_ok))]
fn numbers_ok(l: Link) -> bool
    requires { (1 ≤ l.settings.window) × (l.settings.window ≤ 2) }
    ensures { result ≡ numbers_ok l }
{
    l.next <= 3
        && l.expected <= 3
        && l.waiting <= l.settings.window
        && (l.waiting < 1 || length_ok(l, sent_before(l, 0)))
        && (l.waiting < 2 || length_ok(l, sent_before(l, 1)))
        && l.repeated[0] <= l.settings.repeats
        && l.repeated[1] <= l.settings.repeats
}

// The settings are tested first: nothing of the rest is looked up by a window out of range.
#[tactic(auto, unfolding(crate::specs::State::well_formed))]
fn well_formed(l: Link) -> bool
    ensures { result ≡ well_formed l }
{
    in_range(l.settings) && numbers_ok(l)
}

// ---- the gate

// An answer with a state, and nothing else told.
pub fn answer_only(l: Link, answer: u8) -> Outcome
    ensures { result ≡ only l answer }
{
    Outcome {
        state: l,
        sent: 0,
        delivered: 0,
        answer,
        dropped: 0,
    }
}

fn slots_need(s: Settings) -> usize
    requires { (s.format.d ≤ 1024) × (s.window ≤ 2) }
    ensures { result ≡ slots_need s }
{
    usize::from(s.window) * limit(s)
}

#[tactic(auto, unfolding(crate::specs::Gate::entry_of))]
fn entry(l: Link, slots: usize, frame: usize) -> Result<(), Refusal>
    ensures { answer_of result ≡ entry_of l slots frame }
{
    if !well_formed(l) {
        return Err(Refusal::OutOfRange);
    }
    if slots < slots_need(l.settings) || frame < usize::from(l.settings.format.d) {
        return Err(Refusal::ShortBuffer);
    }
    Ok(())
}

// R9.1: what all calls refuse first, but for start and resynchronise: 1, 2 or 3.
#[tactic(auto, unfolding(crate::specs::Gate::gate_of))]
pub fn gate(l: Link, slots: usize, frame: usize) -> Result<(), Refusal>
    ensures { answer_of result ≡ gate_of l slots frame }
{
    entry(l, slots, frame)?;
    if l.lost {
        return Err(Refusal::LinkLost);
    }
    Ok(())
}

// ---- fresh

// R5.2: a fresh end of these settings.
#[tactic(auto, unfolding(crate::specs::State::fresh_of))]
pub fn fresh(s: Settings) -> Link
    ensures { result ≡ fresh_of s }
{
    Link {
        settings: s,
        ..Link::default()
    }
}

fn renew(l: Link) -> Link
    ensures { result ≡ renewed l }
{
    fresh(l.settings)
}

// The one way by which an end becomes fresh and keeps its settings (R4.5, R5.9): what it tells, with a frame of so many bytes sent.
pub fn become_fresh(l: Link, sent: u16) -> Outcome
    ensures { result ≡ became_fresh l sent }
{
    Outcome {
        sent,
        dropped: l.waiting,
        ..answer_only(renew(l), answer::DONE)
    }
}

// ---- timers

// R12.1: a subtraction that wraps, so no clock is compared by size (R6.1).
fn elapsed_since(start: u32, ms: u32) -> u32
    ensures { result ≡ elapsed start ms }
{
    ms.wrapping_sub(start)
}

// The one test of a timer: 0 means due.
fn left_of(timeout: u16, start: u32, ms: u32) -> u16
    ensures { result ≡ left timeout start ms }
{
    u32::from(timeout).saturating_sub(elapsed_since(start, ms)) as u16
}

// R12.5: the start time of the packet that n were sent after, found by its slot.
fn start_of(l: Link, n: u8) -> u32
    requires { (n ≤ 3) × (1 ≤ l.settings.window) × (l.settings.window ≤ 2) }
    ensures { result ≡ start_of l (sent_before l n) }
{
    let slot = slot_of(l, sent_before(l, n));
    l.starts[slot]
}

// Whether the packet that n were sent after waits and its timer is due.
pub fn is_packet_due(l: Link, n: u8, ms: u32) -> bool
    requires { (n ≤ 3) × (1 ≤ l.settings.window) × (l.settings.window ≤ 2) }
    ensures { result ≡ packet_due l n ms }
{
    n < l.waiting && left_of(l.settings.transtimeout, start_of(l, n), ms) == 0
}

// Whether the acknowledge timer is due; a stopped one is not.
pub fn is_acknowledge_due(l: Link, ms: u32) -> bool
    ensures { result ≡ acknowledge_due l ms }
{
    l.acking && left_of(l.settings.acktimeout, l.ackstart, ms) == 0
}

// What time_left gives where no timer runs.
// Stays: R6.6 and `time_left` tell this number.
pub const NO_TIMER: u16 = 65535;

fn packet_left(l: Link, n: u8, ms: u32) -> u16
    requires { (n ≤ 3) × (1 ≤ l.settings.window) × (l.settings.window ≤ 2) }
    ensures { result ≡ packet_left l n ms }
{
    if n < l.waiting {
        return left_of(l.settings.transtimeout, start_of(l, n), ms);
    }
    NO_TIMER
}

fn acknowledge_left(l: Link, ms: u32) -> u16
    ensures { result ≡ acknowledge_left l ms }
{
    if l.acking {
        return left_of(l.settings.acktimeout, l.ackstart, ms);
    }
    NO_TIMER
}

// R6.6: 0 where a timer is due, NO_TIMER where none runs.
#[tactic(auto, unfolding(crate::specs::Timer::time_left))]
pub fn time_left(l: Link, ms: u32) -> u16
    ensures { result ≡ time_left l ms }
{
    if !well_formed(l) {
        return NO_TIMER;
    }
    packet_left(l, 0, ms)
        .min(packet_left(l, 1, ms))
        .min(acknowledge_left(l, ms))
}

// ---- start and resynchronise

// The state of zeros (R8.1).
#[tactic(auto, unfolding(crate::specs::State::fresh_of))]
pub fn zero_state() -> Link
    ensures { result ≡ zeros }
{
    Link::default()
}

// R1.3: an end to begin with, fresh, or the state of zeros where it is refused.
#[tactic(auto, unfolding(crate::specs::Calls::started))]
pub fn start(s: Settings, slots: &[u8]) -> Outcome
    ensures { result ≡ started s (length slots.now) }
{
    if !in_range(s) {
        return answer_only(zero_state(), Refusal::OutOfRange.number());
    }
    if slots.len() < slots_need(s) {
        return answer_only(zero_state(), Refusal::ShortBuffer.number());
    }
    answer_only(fresh(s), answer::DONE)
}

fn send_reset(l: Link, slots: &[u8], frame: &mut [u8]) -> Outcome
    requires { 5 ≤ length frame.old }
    ensures { after result slots.now frame.new ≡ reset_sent l slots.now frame.old }
{
    let sent = frame::write_reset(l.settings.format, frame);
    become_fresh(l, sent)
}

// R5.9: the reset frame goes out and the end is fresh, its link lost before or not.
#[tactic(auto, unfolding(crate::specs::Calls::resynchronised))]
pub fn resynchronise(l: Link, slots: &[u8], frame: &mut [u8], _ms: u32) -> Outcome
    ensures { after result slots.now frame.new ≡ resynchronised l slots.now frame.old }
{
    match entry(l, slots.len(), frame.len()) {
        Ok(()) => send_reset(l, slots, frame),
        Err(refusal) => answer_only(l, refusal.number()),
    }
}
