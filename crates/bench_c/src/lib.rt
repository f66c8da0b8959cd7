// The library bench for a program in C: each function of it under its own name. Not part of the product.
#![tactic(auto)]

ghost use Rattle.std.specs.Prelude.{◌≡◌};
ghost use Rattle.fcs.specs.Checksum.{checksum_of};

// The checksum of the bytes.
#[unsafe(no_mangle)]
pub extern "C" fn bench_checksum(bytes: &[u8]) -> u16
    ensures { result ≡ checksum_of bytes.now }
{
    bench::bench_checksum(bytes)
}

// 0 where the packet was acknowledged (or an order that is none was refused). The chip sends no data, so both ends are lent the same slots.
#[unsafe(no_mangle)]
pub extern "C" fn bench_exchange(
    order: u8,
    packet: &[u8],
    slots: &mut [u8],
    frame: &mut [u8],
    back: &mut [u8],
) -> u8 {
    bench::bench_exchange(order, packet, slots, frame, back)
}
