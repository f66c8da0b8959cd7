// A packet of 1 to m bytes, taken apart: R7.1.
ghost use Rattle.std.specs.Prelude.{◌≡◌, true, false, ◌≤◌, eqb, length, get_or, drop, IfOk, MatchResult};
ghost use Rattle.base.specs.declared.answer.Refusal.TheVariants.{PacketSize};
ghost use Rattle.base.specs.Range.{within};

use crate::limit::Limit;
use crate::pctr::{Chain, Channel};
use base::answer::Refusal;

#[derive(Drop)]
pub(crate) struct Packet<'a> {
    pctr: u8,
    part: &'a [u8],
}

impl<'a> Packet<'a> {
    ghost use Rattle.chain.specs.Pctr.{channel_of, secured_of, chain_of, HasBits};
    ghost use Rattle.chain.specs.Packet.{bytes_of};

    // R8.4
    pub(crate) fn new(limit: Limit, bytes: &'a [u8]) -> Result<Packet<'a>, Refusal>
        ensures in_size { MatchResult result (λ packet. within 1 (length bytes.now) limit.m ≡ true) (λ refusal. (refusal ≡ PacketSize) × (within 1 (length bytes.now) limit.m ≡ false)) }
        ensures same { IfOk result (λ packet. bytes_of packet ≡ bytes.now) }
    {
        match bytes {
            [pctr, part @ ..] if bytes.len() <= limit.bytes() => Ok(Packet { pctr: *pctr, part }),
            _ => Err(Refusal::PacketSize),
        }
    }

    pub(crate) fn size(&self) -> usize
        ensures { (result ≡ length (bytes_of self.now)) × (1 ≤ result) }
    {
        self.part.len() + 1
    }

    pub(crate) fn is_of(&self, channel: Channel) -> bool
        ensures { result ≡ eqb (channel_of (get_or (bytes_of self.now) 0 0)) channel.number }
    {
        self.pctr / 16 == channel.number
    }

    pub(crate) fn is_secured(&self) -> bool
        ensures { result ≡ secured_of (get_or (bytes_of self.now) 0 0) }
    {
        self.pctr / 8 % 2 == 1
    }

    pub(crate) fn chain(&self) -> Result<Chain, Refusal>
        ensures { HasBits (chain_of (get_or (bytes_of self.now) 0 0)) result }
    {
        Chain::try_from(self.pctr % 8)
    }

    // what of it is the message's
    pub(crate) fn part(&self) -> &'a [u8]
        ensures { result.now ≡ drop 1 (bytes_of self.now) }
    {
        self.part
    }
}
