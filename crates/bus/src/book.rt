// What a story keeps beside the ends: the packets that each end took and delivered since it was fresh. How many they are is what the end
// has counted.
use ends::PLACES;
use ends::bytes::Bytes;
use ends::pair::Pair;

// Stays: an array alone, for the end counts its packets; a count here would be a second one to keep with it.
#[derive(Drop)]
pub struct Shelf {
    packets: [Bytes; PLACES],
}

impl Shelf {
    fn new() -> Shelf {
        Shelf {
            packets: [Bytes::empty(); PLACES],
        }
    }

    // Packet n stands here, if there is a place for it; what stood on the place is of an end that was not fresh since.
    pub fn put(&mut self, n: usize, packet: &[u8]) {
        if let Some(laid) = Bytes::new(packet)
            && n < PLACES
        {
            self.packets[n] = laid;
        }
    }

    // The first so many packets, or all where they are fewer.
    pub fn first(&self, count: usize) -> &[Bytes] {
        &self.packets[..count.min(PLACES)]
    }
}

#[derive(Drop)]
pub struct Shelves {
    pub taken: Shelf,
    pub delivered: Shelf,
}

impl Shelves {
    fn new() -> Shelves {
        Shelves {
            taken: Shelf::new(),
            delivered: Shelf::new(),
        }
    }
}

// What an end took, and what it delivered.
pub type Book = Pair<Shelves>;

pub fn empty() -> Book {
    Pair {
        desk: Shelves::new(),
        chip: Shelves::new(),
    }
}
