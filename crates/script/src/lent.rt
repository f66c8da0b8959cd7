// A buffer that is lent.
use arrayvec::ArrayVec;

// What a buffer holds before it is written: one that stays, and one that is lent to one call.
pub const UNWRITTEN: u8 = 0xEE;

pub const UNSENT: u8 = 0xDD;

// So many of the bytes, or all: what is lent to one call.
// Stays: a part of an array; an ArrayVec for each call would be filled, moved and cleared behind its end.
pub fn part_of(bytes: &mut [u8], size: usize) -> &mut [u8] {
    let end = size.min(bytes.len());
    &mut bytes[..end]
}

// A buffer that goes on from call to call becomes one of so many bytes, at most N.
pub fn renew<const N: usize>(lent: &mut ArrayVec<u8, N>, size: usize) {
    lent.clear();
    let _ = lent.try_extend_from_slice(part_of(&mut [UNWRITTEN; N], size));
}
