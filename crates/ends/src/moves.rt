// What can happen to two ends, and what comes of it.
use crate::Side;
use crate::bytes::Bytes;
use crate::hearing::Hearing;
use base::answer::Refusal;

#[derive(Clone, Copy, PartialEq, Eq)]
pub enum Call {
    Submit,
    // The first frame on its way to the end is carried there, which is its call to take it.
    Carry,
    Look,
    Acknowledge,
    Resynchronise,
}

#[derive(Clone, Copy, PartialEq, Eq)]
pub enum Move {
    // A call at the end.
    Call(Side, Call),
    // Of the frames on their way to the end, from 0 on, that one is lost, or becomes other bytes.
    Lose(Side, usize),
    Damage(Side, usize),
    // So many milliseconds pass.
    Pass(u32),
    // A timer round begins.
    Round,
}

// What came of a call. refusal: why it was not carried out, if it was not. freed, dropped: how many packets wait no more because they were
// acknowledged, and because of a reset. is_crowded: what was sent is lost, since 64 frames are on their way already. heard: what was heard in
// the frame that was carried; of a resynchronise a reset. was_lost: the link was lost before.
#[derive(Clone, Copy)]
pub struct Event {
    pub delivered: Option<Bytes>,
    pub sent: Option<Bytes>,
    pub heard: Hearing,
    pub refusal: Option<Refusal>,
    pub freed: u8,
    pub dropped: u8,
    pub is_crowded: bool,
    pub was_lost: bool,
}

impl Event {
    // Whether the call made its end fresh.
    pub(crate) fn is_fresh(&self) -> bool {
        self.heard == Hearing::Reset && self.refusal.is_none()
    }
}
