// Chaining: cut a message into packets, join packets to a message. Only this crate knows PCTR.
#![tactic(auto)]

ghost use Rattle.std.specs.Prelude.{◌≡◌, ◌∷◌, ◌+◌, ◌≤◌, ◌<◌, length, get_or, IfOk};
ghost use Rattle.base.specs.Answer.{number_of, answer_of};
ghost use Rattle.base.specs.Buffer.{put};
ghost use Rattle.chain.specs.Pctr.{chain_of, bits_of};
ghost use Rattle.chain.specs.Packet.{bytes_of};
ghost use Rattle.chain.specs.Cut.{packet_count, message_gate, cut_gate, cutting, given, cut_out};
ghost use Rattle.chain.specs.Join.{fresh_joining, closed, grown, joins, drops_chain, fault_of, refusal, packet_gate, join_gate, faulty, place_of, total_of, chain_gate, part_told, part_added, part_joined, joined};

mod limit;
mod packet;
mod pctr;

use base::answer::Refusal;
use base::{answer, buffer};
use limit::Limit;
use packet::Packet;
use pctr::{Chain, Channel};

// R1.6: what cut tells of a packet.
// Stays: `cut_out` says each of the three, the answer as a number (R8).
#[derive(Clone, Copy)]
pub struct Piece {
    pub count: u16,
    pub length: u16,
    pub answer: u8,
}

// R7.4: what is kept of a message whose packets are being joined.
// Stays: `joined` takes a length without an open chain too (D49), and refuses one above 4,096 (R8.1).
#[derive(Clone, Copy)]
pub struct Joining {
    pub length: u16,
    pub opened: bool,
}

// R1.6, R7.6: what join tells: with answer 10 also the packet that tells the peer of it, as a number.
// Stays: `joined` says each of the four, the answer as a number (R8), and a fault of 0 where there is none (D54).
#[derive(Clone, Copy)]
pub struct Joined {
    pub state: Joining,
    pub length: u16,
    pub answer: u8,
    pub fault: u8,
}

const LONGEST: usize = 4096;

// ---- cut

#[tactic(auto, unfolding(crate::specs::Cut::message_gate))]
fn message_gate(limit: Limit, message: usize, i: usize) -> Result<(), Refusal>
    ensures { answer_of result ≡ message_gate limit.m message i }
{
    if message == 0 || LONGEST < message {
        return Err(Refusal::MessageSize);
    }
    if limit.count(message) <= i {
        return Err(Refusal::NoSuchPacket);
    }
    Ok(())
}

#[tactic(auto, unfolding(crate::specs::Cut::cut_gate))]
fn cut_gate(m: u16, buffer: usize, message: usize, i: usize) -> Result<Limit, Refusal>
    ensures order { answer_of result ≡ cut_gate m buffer message i }
    ensures same { IfOk result (λ limit. limit.m ≡ m) }
{
    let limit = Limit::new(m)?;
    if buffer < limit.bytes() {
        return Err(Refusal::ShortBuffer);
    }
    message_gate(limit, message, i)?;
    Ok(limit)
}

#[tactic(auto, using(crate::proofs::Parts::laid))]
fn lay(packet: &mut [u8], pctr: u8, part: &[u8])
    requires { length part.now + 1 ≤ length packet.old }
    ensures { packet.new ≡ put packet.old 0 (pctr ∷ part.now) }
{
    packet[0] = pctr;
    buffer::copy_at(packet, 1, part);
}

fn give(limit: Limit, channel: Channel, message: &[u8], i: usize, packet: &mut [u8]) -> Piece
    requires { (length message.now ≤ 4096) × (limit.m ≤ length packet.old) × (i < packet_count limit.m (length message.now)) }
    ensures { cutting result packet.new ≡ given limit.m channel.number message.now i packet.old }
{
    let count = limit.count(message.len());
    let part = limit.part(message, i);
    lay(packet, channel.pctr(Chain::at(i, count)), part);
    Piece {
        count: count as u16,
        length: (part.len() + 1) as u16,
        answer: answer::DONE,
    }
}

// R1.6: gives packet i of a message, if there is one.
#[tactic(auto, unfolding(crate::specs::Cut::cut_out))]
pub fn cut(m: u16, message: &[u8], i: u32, packet: &mut [u8]) -> Piece
    ensures { cutting result packet.new ≡ cut_out m message.now i packet.old }
{
    match cut_gate(m, packet.len(), message.len(), i as usize) {
        Ok(limit) => give(limit, Channel::ONLY, message, i as usize, packet),
        Err(refusal) => Piece {
            count: 0,
            length: 0,
            answer: refusal.number(),
        },
    }
}

// ---- join: refusals

// R7.4: a joining to begin with.
pub fn fresh_joining() -> Joining
    ensures { result ≡ fresh_joining }
{
    Joining {
        length: 0,
        opened: false,
    }
}

// R7.8; what else a joining comes to hold stays (D93).
impl Joining {
    fn closed(self) -> Self
        ensures { result ≡ closed self }
    {
        Joining {
            length: 0,
            opened: false,
            ..self
        }
    }

    fn grown(self, total: u16) -> Self
        ensures { result ≡ grown self total }
    {
        Joining {
            length: total,
            opened: true,
            ..self
        }
    }

    // R7.7: where in the room a part goes
    fn place_of(self, chain: Chain) -> usize
        ensures { (result ≡ place_of self (bits_of chain)) × (result < 65536) }
    {
        if chain.begins() {
            0
        } else {
            usize::from(self.length)
        }
    }
}

fn drops_chain(refusal: Refusal) -> bool
    ensures { result ≡ drops_chain (number_of refusal) }
{
    matches!(
        refusal,
        Refusal::ChainFault | Refusal::TooLong | Refusal::FaultTold
    )
}

fn fault_of(channel: Channel, refusal: Refusal) -> u8
    ensures { result ≡ fault_of channel.number (number_of refusal) }
{
    match refusal {
        Refusal::ChainFault => channel.pctr(Chain::Fault),
        _ => 0,
    }
}

fn refuse(channel: Channel, j: Joining, why: Refusal) -> Joined
    ensures { result ≡ refusal channel.number j (number_of why) }
{
    Joined {
        state: if drops_chain(why) { j.closed() } else { j },
        length: 0,
        answer: why.number(),
        fault: fault_of(channel, why),
    }
}

#[tactic(auto, unfolding(crate::specs::Join::packet_gate))]
fn packet_gate<'a>(limit: Limit, bytes: &'a [u8]) -> Result<Packet<'a>, Refusal>
    ensures order { answer_of result ≡ packet_gate limit.m bytes.now }
    ensures same { IfOk result (λ packet. bytes_of packet ≡ bytes.now) }
{
    let packet = Packet::new(limit, bytes)?;
    if !packet.is_of(Channel::ONLY) {
        return Err(Refusal::OtherChannel);
    }
    Ok(packet)
}

#[tactic(auto, unfolding(crate::specs::Join::join_gate))]
fn join_gate<'a>(
    m: u16,
    j: Joining,
    bytes: &'a [u8],
    room: usize,
) -> Result<(Limit, Packet<'a>), Refusal>
    ensures order { answer_of result ≡ join_gate m j bytes.now room }
    ensures same { IfOk result (λ p. (p.0.m ≡ m) × (bytes_of p.1 ≡ bytes.now)) }
{
    let limit = Limit::new(m)?;
    if LONGEST < usize::from(j.length) {
        return Err(Refusal::OutOfRange);
    }
    if room < LONGEST {
        return Err(Refusal::ShortBuffer);
    }
    let packet = packet_gate(limit, bytes)?;
    Ok((limit, packet))
}

// ---- join: the chain, whatever the channel

#[tactic(auto, unfolding(crate::specs::Join::faulty))]
fn is_faulty(limit: Limit, opened: bool, chain: Chain, size: usize) -> bool
    ensures { result ≡ faulty limit.m opened (bits_of chain) size }
{
    match chain {
        Chain::Whole => opened || size == 1,
        Chain::First => opened || size != limit.bytes(),
        Chain::Middle => !opened || size != limit.bytes(),
        Chain::Last => !opened || size == 1,
        Chain::Fault => true,
    }
}

#[tactic(auto, using(crate::proofs::Chains::other_bits_refused), unfolding(crate::specs::Join::chain_gate))]
fn chain_gate(limit: Limit, j: Joining, packet: &Packet) -> Result<Chain, Refusal>
    ensures order { answer_of result ≡ chain_gate limit.m j (get_or (bytes_of packet.now) 0 0) (length (bytes_of packet.now)) }
    ensures same { IfOk result (λ chain. bits_of chain ≡ chain_of (get_or (bytes_of packet.now) 0 0)) }
{
    let size = packet.size();
    match packet.chain()? {
        Chain::Fault if size == 1 => Err(Refusal::FaultTold),
        chain if is_faulty(limit, j.opened, chain, size) => Err(Refusal::ChainFault),
        chain if packet.is_secured() && chain.begins() => Err(Refusal::SecuredPacket),
        chain if LONGEST < j.place_of(chain) + packet.part().len() => Err(Refusal::TooLong),
        chain => Ok(chain),
    }
}

fn tell(j: Joining, packet: &Packet, chain: Chain) -> Joined
    requires { total_of j (bits_of chain) (length (bytes_of packet.now)) ≤ 4096 }
    ensures { result ≡ part_told j (bits_of chain) (length (bytes_of packet.now)) }
{
    let total = (j.place_of(chain) + packet.part().len()) as u16;
    let (state, length) = if chain.finishes() {
        (j.closed(), total)
    } else {
        (j.grown(total), 0)
    };
    Joined {
        state,
        length,
        answer: answer::DONE,
        fault: 0,
    }
}

fn add_part(j: Joining, packet: &Packet, chain: Chain, room: &mut [u8]) -> Joined
    requires { (total_of j (bits_of chain) (length (bytes_of packet.now)) ≤ 4096) × (4096 ≤ length room.old) }
    ensures { joins result room.new ≡ part_added j (bytes_of packet.now) (bits_of chain) room.old }
{
    buffer::copy_at(room, j.place_of(chain), packet.part());
    tell(j, packet, chain)
}

#[tactic(auto, unfolding(crate::specs::Join::part_joined))]
fn join_part(limit: Limit, channel: Channel, j: Joining, packet: &Packet, room: &mut [u8]) -> Joined
    requires { 4096 ≤ length room.old }
    ensures { joins result room.new ≡ part_joined limit.m channel.number j (bytes_of packet.now) room.old }
{
    match chain_gate(limit, j, packet) {
        Ok(chain) => add_part(j, packet, chain, room),
        Err(refusal) => refuse(channel, j, refusal),
    }
}

// ---- join

// R1.6: joins one packet to what is joined, if nothing of R7.5 stands against it.
#[tactic(auto, unfolding(crate::specs::Join::joined))]
pub fn join(m: u16, j: Joining, packet: &[u8], room: &mut [u8]) -> Joined
    ensures { joins result room.new ≡ joined m j packet.now room.old }
{
    match join_gate(m, j, packet, room.len()) {
        Ok((limit, packet)) => join_part(limit, Channel::ONLY, j, &packet, room),
        Err(refusal) => refuse(Channel::ONLY, j, refusal),
    }
}
