// A frame, or a packet: bytes, at most as many as the longest frame has.
ghost use Rattle.std.specs.Prelude.{◌≡◌, ◌≤◌, ◌↔◌, [], length, IsSome, IfSome};

// The longest frame.
pub const LONGEST: usize = 1024;

// Stays: what is sent lies in the queue and in the event too; an `ArrayVec` is not Copy, and its clone can fail.
#[derive(Clone, Copy)]
pub struct Bytes {
    bytes: [u8; LONGEST],
    count: usize,
    ghost fits: { count ≤ 1024 },
}

impl Bytes {
    ghost use Rattle.ends.specs.Bytes.{bytes_of};

    // None where they are too many.
    pub fn new(bytes: &[u8]) -> Option<Bytes>
        ensures fits { IsSome result ↔ (length bytes.now ≤ 1024) }
        ensures value { IfSome result (λ laid. bytes_of laid ≡ bytes.now) }
    {
        let count = bytes.len();
        if LONGEST < count {
            return None;
        }
        let mut laid = [0u8; LONGEST];
        laid[..count].copy_from_slice(bytes);
        Some(Bytes { bytes: laid, count })
    }

    pub fn empty() -> Bytes
        ensures { bytes_of result ≡ [] }
    {
        Bytes {
            bytes: [0; LONGEST],
            count: 0,
        }
    }

    pub fn as_slice(&self) -> &[u8]
        ensures { result.now ≡ bytes_of self.now }
    {
        &self.bytes[..self.count]
    }
}

impl Default for Bytes {
    fn default() -> Bytes {
        Bytes::empty()
    }
}
