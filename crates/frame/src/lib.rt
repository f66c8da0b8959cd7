// A frame's bytes, heard and written: R3, R4.1 to R4.4. Only this crate knows the place of a byte and the order of FCS.
#![tactic(auto)]

ghost use Rattle.std.specs.Prelude.{◌≡◌, [], ◌∷◌, ◌++◌, ◌+◌, ◌≤◌, ◌<◌, length, take};
ghost use Rattle.base.specs.Answer.{answer_of};
ghost use Rattle.base.specs.Buffer.{put};
ghost use Rattle.frame.specs.Bytes.{len_bytes, by_order, fcs_bytes, sealed, data_frame, ack_frame, nak_frame, frame_of, reset_frame, Written};
ghost use Rattle.frame.specs.Orders.{in_other_order};
ghost use Rattle.frame.specs.Steps.{len_of, fcs_at, used, accepted, judged, heard, refusal_of};

use base::answer::Refusal;
use base::buffer;

// What the bytes of a frame depend on beside what it says, for the writer as for the hearer: D, and the order of the FCS bytes (R3.8).
// Stays: the order is a number, since a state that is handed in may hold any (R2.1, `in_range`).
#[derive(Clone, Copy, Default)]
pub struct Format {
    pub d: u16,
    pub order: u8,
}

// R3.8, the two orders.
pub const LOW_FIRST: u8 = 0;

pub const HIGH_FIRST: u8 = 1;

// What steps 1 to 4 make of a received frame; each refusal is a case of its own, with a number of its own (R12.7).
// Stays: the refusals stand among the others, since `heard` and `obeyed` go by these nine cases.
#[derive(Clone, Copy)]
pub enum Heard {
    Size,
    Sum,
    Code,
    ControlSize,
    Length,
    Reset,
    Ack(u8),
    Nak(u8),
    Data {
        number: u8,
        nak: bool,
        acknowledged: u8,
        length: u16,
    },
}

// The same format with the other order.
pub fn other_order(format: Format) -> Format
    ensures { result ≡ in_other_order format }
{
    let order = if format.order == HIGH_FIRST {
        LOW_FIRST
    } else {
        HIGH_FIRST
    };
    Format { order, ..format }
}

fn fcs_bytes(format: Format, sum: u16) -> [u8; 2]
    ensures { result ≡ fcs_bytes format sum }
{
    if format.order == HIGH_FIRST {
        sum.to_be_bytes()
    } else {
        sum.to_le_bytes()
    }
}

// ---- hearing

fn len_of(frame: &[u8]) -> u16
    requires { 5 ≤ length frame.now }
    ensures { result ≡ len_of frame.now }
{
    u16::from_be_bytes([frame[1], frame[2]])
}

#[tactic(auto, unfolding(crate::specs::Steps::fcs_at))]
fn fcs_at(format: Format, frame: &[u8], at: usize) -> bool
    requires { at + 2 ≤ length frame.now }
    ensures { result ≡ fcs_at format at frame.now }
{
    let right = fcs_bytes(format, fcs::checksum(&frame[..at]));
    (frame[at] == right[0]) & (frame[at + 1] == right[1])
}

#[tactic(auto, unfolding(crate::specs::Steps::used))]
fn is_used(fctr: u8) -> bool
    ensures { result ≡ used fctr }
{
    matches!(fctr, 0x00..=0x0F | 0x20..=0x2F | 0x80..=0x83 | 0xA0..=0xA3 | 0xC0)
}

#[tactic(auto, unfolding(crate::specs::Steps::accepted))]
fn accept(fctr: u8, len: u16) -> Heard
    ensures { result ≡ accepted fctr len }
{
    let acknowledged = fctr % 4;
    let sequence = fctr / 32 % 4;
    if fctr < 0x80 {
        return Heard::Data {
            number: fctr / 4 % 4,
            nak: sequence == 1,
            acknowledged,
            length: len,
        };
    }
    match sequence {
        2 => Heard::Reset,
        1 => Heard::Nak(acknowledged),
        _ => Heard::Ack(acknowledged),
    }
}

// Steps 2 to 4, of the frame's FCTR, its LEN and its size.
#[tactic(auto, unfolding(crate::specs::Steps::judged))]
fn judge(fctr: u8, len: u16, size: usize) -> Heard
    requires { 5 ≤ size }
    ensures { result ≡ judged fctr len size }
{
    let control = 0x80 <= fctr;
    let unused = !is_used(fctr);
    let oversize = control && (size != 5 || len != 0);
    let uneven = !control && (len == 0 || usize::from(len) != size - 5);
    if unused {
        return Heard::Code;
    }
    if oversize {
        return Heard::ControlSize;
    }
    if uneven {
        return Heard::Length;
    }
    accept(fctr, len)
}

// Steps 1 to 4. The checksum is not run over a frame longer than D (R4.1).
pub fn hear(format: Format, frame: &[u8]) -> Heard
    ensures { result ≡ heard format frame.now }
{
    let size = frame.len();
    if size < 5 {
        return Heard::Size;
    }
    let at = size - 2;
    let len = len_of(frame);
    if (format.d as usize) < size {
        return Heard::Size;
    }
    if fcs_at(format, frame, at) {
        return judge(frame[0], len, size);
    }
    Heard::Sum
}

// Why a frame so heard is refused, if steps 1 to 4 refuse it.
pub fn refusal(h: Heard) -> Result<(), Refusal>
    ensures { answer_of result ≡ refusal_of h }
{
    match h {
        Heard::Size => Err(Refusal::FrameSize),
        Heard::Sum => Err(Refusal::FrameSum),
        Heard::Code => Err(Refusal::UnusedCode),
        Heard::ControlSize => Err(Refusal::ControlSize),
        Heard::Length => Err(Refusal::FrameLength),
        Heard::Reset | Heard::Ack(_) | Heard::Nak(_) | Heard::Data { .. } => Ok(()),
    }
}

// ---- writing

fn put_head(frame: &mut [u8], fctr: u8, len: u16)
    requires { 3 ≤ length frame.old }
    ensures { frame.new ≡ put frame.old 0 (fctr ∷ len_bytes len) }
{
    let [high, low] = len.to_be_bytes();
    frame[0] = fctr;
    frame[1] = high;
    frame[2] = low;
}

// R3.2: writes FCS behind the bytes that it covers, and gives the length of the whole.
fn seal(format: Format, frame: &mut [u8], covered: usize) -> u16
    requires { (covered + 2 ≤ length frame.old) × (covered + 2 < 65536) }
    ensures { Written (sealed format (take covered frame.old)) frame.old frame.new result }
{
    let bytes = fcs_bytes(format, fcs::checksum(&frame[..covered]));
    frame[covered] = bytes[0];
    frame[covered + 1] = bytes[1];
    (covered + 2) as u16
}

// All of a frame but its FCS.
#[tactic(auto, using(crate::proofs::Writing::body_put))]
fn write_body(frame: &mut [u8], fctr: u8, packet: &[u8])
    requires { (length packet.now + 3 ≤ length frame.old) × (length packet.now < 65536) }
    ensures { frame.new ≡ put frame.old 0 (fctr ∷ (len_bytes (length packet.now) ++ packet.now)) }
{
    put_head(frame, fctr, packet.len() as u16);
    buffer::copy_at(frame, 3, packet);
}

// Writes a data frame, and gives its length.
pub fn write_data(
    format: Format,
    frame: &mut [u8],
    number: u8,
    acknowledged: u8,
    packet: &[u8],
) -> u16
    requires number_bound { (number ≤ 3) × (acknowledged ≤ 3) }
    requires packet_in_bounds { (length packet.now + 5 ≤ length frame.old) × (length packet.now + 5 < 65536) }
    ensures { Written (data_frame format number acknowledged packet.now) frame.old frame.new result }
{
    write_body(frame, number * 4 + acknowledged, packet);
    seal(format, frame, 3 + packet.len())
}

fn write_control(format: Format, frame: &mut [u8], fctr: u8) -> u16
    requires { 5 ≤ length frame.old }
    ensures { Written (frame_of format fctr []) frame.old frame.new result }
{
    put_head(frame, fctr, 0);
    seal(format, frame, 3)
}

// Writes a control ACK, and gives its length.
// Stays: this and write_nak are one call of write_control each, and one for both would say no more.
pub fn write_ack(format: Format, frame: &mut [u8], acknowledged: u8) -> u16
    requires { (acknowledged ≤ 3) × (5 ≤ length frame.old) }
    ensures { Written (ack_frame format acknowledged) frame.old frame.new result }
{
    write_control(format, frame, 0x80 + acknowledged)
}

// Writes a control NAK, and gives its length.
pub fn write_nak(format: Format, frame: &mut [u8], acknowledged: u8) -> u16
    requires { (acknowledged ≤ 3) × (5 ≤ length frame.old) }
    ensures { Written (nak_frame format acknowledged) frame.old frame.new result }
{
    write_control(format, frame, 0xA0 + acknowledged)
}

// R12.4: writes the reset frame, a fixed string for each order, and gives its length.
pub fn write_reset(format: Format, frame: &mut [u8]) -> u16
    requires { 5 ≤ length frame.old }
    ensures { Written (reset_frame format) frame.old frame.new result }
{
    let bytes = if format.order == HIGH_FIRST {
        b"\xC0\x00\x00\x0A\x9A"
    } else {
        b"\xC0\x00\x00\x9A\x0A"
    };
    buffer::copy_at(frame, 0, bytes);
    5
}
