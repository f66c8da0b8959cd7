// What bench/ measures; bench_c has it for a program in C. Not part of the product.
#![tactic(auto)]

ghost use Rattle.std.specs.Prelude.{◌≡◌};
ghost use Rattle.fcs.specs.Checksum.{checksum_of};

use base::buffer::part;
use frame::Format;
use state::{Link, Outcome, Settings};

// The checksum of the bytes.
pub fn bench_checksum(bytes: &[u8]) -> u16
    ensures { result ≡ checksum_of bytes.now }
{
    fcs::checksum(bytes)
}

// ---- one packet from a desk to a chip, by all six calls

fn settings(order: u8) -> Settings {
    Settings {
        format: Format { d: 277, order },
        transtimeout: 100,
        acktimeout: 50,
        window: 2,
        repeats: 3,
    }
}

// The desk begins, and sends the packet.
fn submitted(fresh: Link, slots: &mut [u8], frame: &mut [u8], packet: &[u8]) -> Outcome {
    let begun = link::resynchronise(fresh, slots, frame, 0);
    link::submit(begun.state, slots, frame, 1, packet)
}

// The chip takes the desk's frame, of so many bytes, and acknowledges it at once.
fn acknowledged(chip: Link, sent: u16, slots: &[u8], frame: &[u8], back: &mut [u8]) -> u16 {
    let data = part(frame, 0, sent as usize);
    let taken = link::take(chip, slots, back, 1, data);
    link::acknowledge(taken.state, slots, back, 1).sent
}

// How many packets wait at the desk once it has taken the acknowledgement and looked at its clock.
fn left_over(desk: Link, sent: u16, slots: &[u8], frame: &mut [u8], back: &[u8]) -> u8 {
    let ack = part(back, 0, sent as usize);
    let taken = link::take(desk, slots, frame, 2, ack);
    link::look(taken.state, slots, frame, 3)
        .outcome
        .state
        .waiting
}

// 0 where the packet was acknowledged (or an order that is none was refused). The chip sends no data, so both ends are lent the same slots.
pub fn bench_exchange(
    order: u8,
    packet: &[u8],
    slots: &mut [u8],
    frame: &mut [u8],
    back: &mut [u8],
) -> u8 {
    let fresh = link::start(settings(order), slots).state;
    let desk = submitted(fresh, slots, frame, packet);
    let sent = acknowledged(fresh, desk.sent, slots, frame, back);
    left_over(desk.state, sent, slots, frame, back)
}
