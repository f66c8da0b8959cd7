// What a packet's first byte, PCTR, says: R7.1.
ghost use Rattle.std.specs.Prelude.{◌≡◌, ◌≤◌, ◌<◌};
ghost use Rattle.chain.specs.Pctr.{pctr_of, bits_of, HasBits};
ghost use Rattle.chain.specs.Join.{begins, finishes};
ghost use Rattle.chain.specs.Cut.{chain_at};

use base::answer::Refusal;

// CHAIN: R7.2, R7.3. Fault is of the packet that tells a fault (R7.6).
#[derive(Clone, Copy)]
pub(crate) enum Chain {
    Whole = 0,
    First = 1,
    Middle = 2,
    Last = 4,
    Fault = 7,
}

impl Chain {
    // R7.3: of packet i, of so many
    pub(crate) fn at(i: usize, count: usize) -> Chain
        requires { i < count }
        ensures { bits_of result ≡ chain_at i count }
    {
        if count == 1 {
            Chain::Whole
        } else if i == 0 {
            Chain::First
        } else if i + 1 == count {
            Chain::Last
        } else {
            Chain::Middle
        }
    }

    pub(crate) fn begins(self) -> bool
        ensures { result ≡ begins (bits_of self) }
    {
        matches!(self, Chain::Whole | Chain::First)
    }

    pub(crate) fn finishes(self) -> bool
        ensures { result ≡ finishes (bits_of self) }
    {
        matches!(self, Chain::Whole | Chain::Last)
    }
}

// R7.5: other bits are a fault of the chain.
impl TryFrom<u8> for Chain {
    type Error = Refusal;

    ghost try_from_gives = { HasBits };

    fn try_from(bits: u8) -> Result<Chain, Refusal> {
        match bits {
            0 => Ok(Chain::Whole),
            1 => Ok(Chain::First),
            2 => Ok(Chain::Middle),
            4 => Ok(Chain::Last),
            7 => Ok(Chain::Fault),
            _ => Err(Refusal::ChainFault),
        }
    }
}

// R1.1
#[derive(Clone, Copy)]
pub(crate) struct Channel {
    pub(crate) number: u8,
    ghost in_range: { number ≤ 15 },
}

impl Channel {
    // the one that is built
    pub(crate) const ONLY: Channel = Channel { number: 0 };

    pub(crate) fn pctr(self, chain: Chain) -> u8
        ensures { result ≡ pctr_of self.number (bits_of chain) }
    {
        self.number * 16 + chain as u8
    }
}
