// How many bytes a packet may have, m: R2.2.
ghost use Rattle.std.specs.Prelude.{◌≡◌, false, ◌≤◌, ◌<◌, length, MatchResult};
ghost use Rattle.base.specs.declared.answer.Refusal.TheVariants.{OutOfRange};
ghost use Rattle.chain.specs.Cut.{limit_ok, part_size, packet_count, part_at};

use base::answer::Refusal;

const LEAST: u16 = 11;

const MOST: u16 = 1019;

#[derive(Clone, Copy)]
pub(crate) struct Limit {
    m: u16,
    ghost in_range: { (11 ≤ m) × (m ≤ 1019) },
}

impl Limit {
    pub(crate) fn new(m: u16) -> Result<Limit, Refusal>
        ensures { MatchResult result (λ limit. limit.m ≡ m) (λ refusal. (refusal ≡ OutOfRange) × (limit_ok m ≡ false)) }
    {
        if (LEAST..=MOST).contains(&m) {
            Ok(Limit { m })
        } else {
            Err(Refusal::OutOfRange)
        }
    }

    pub(crate) fn bytes(self) -> usize
        ensures { result ≡ self.m }
    {
        usize::from(self.m)
    }

    // R7.3: how many of them are the message's
    fn part_size(self) -> usize
        ensures { result ≡ part_size self.m }
    {
        self.bytes() - 1
    }

    // R7.3: how many packets a message of so many bytes has
    pub(crate) fn count(self, message: usize) -> usize
        ensures { result ≡ packet_count self.m message }
    {
        message.div_ceil(self.part_size())
    }

    // R7.3: the bytes of a message that are in packet i
    pub(crate) fn part(self, message: &[u8], i: usize) -> &[u8]
        requires { i < packet_count self.m (length message.now) }
        ensures { result.now ≡ part_at self.m message.now i }
    {
        let rest = &message[i * self.part_size()..];
        &rest[..rest.len().min(self.part_size())]
    }
}
