// The frame check sequence: R3.3, R3.4. Only this crate knows the polynomial, and only its own functions reach the table.
#![tactic(auto)]

mod table;

ghost use Rattle.std.specs.Prelude.{◌≡◌};
ghost use Rattle.fcs.specs.Checksum.{byte_step, checksum_of, Agrees};

// R3.3, one byte: the bit rule eight times, in the form of R12.6.
pub fn bit_rule(seed: u16, byte: u8) -> u16
    ensures { result ≡ byte_step seed byte }
{
    let mut crc = seed;
    let mut bits = byte as u16;
    for _ in 0..8u8 {
        if (crc & 1) == (bits & 1) {
            crc >>= 1;
        } else {
            crc = (crc >> 1) ^ 0x8408;
        }
        bits >>= 1;
    }
    crc
}

// R3.4: the same by the table, in one step.
fn step(table: &[u16; 256], seed: u16, byte: u8) -> u16
    requires { Agrees table.now }
    ensures { result ≡ byte_step seed byte }
{
    let i = ((seed ^ (byte as u16)) & 0xFF) as usize;
    table[i] ^ (seed >> 8)
}

// R3.3: the checksum of the bytes.
pub fn checksum(bytes: &[u8]) -> u16
    ensures { result ≡ checksum_of bytes.now }
{
    let entries = table::entries();
    let mut crc = 0;
    for byte in bytes {
        crc = step(&entries, crc, *byte);
    }
    crc
}
