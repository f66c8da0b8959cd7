// The number that a call returns where it is carried out, and why it is refused where it is not (R8). specs/Answer.antt has the same names
// for the contracts.
ghost use Rattle.std.specs.Prelude.{◌≡◌};
ghost use Rattle.base.specs.Answer.{number_of, answer_of, Numbered};

// Stays: an outcome's answer is a number (R1.5, R8), so the definitions of the calls say numbers, from `started` to `joined`.
pub const DONE: u8 = 0;

// A refusal; the call returns its number. Those from 19 on are named before any call returns them (R9.4), so that a call that is added later
// proves nothing below it again.
#[derive(Clone, Copy, PartialEq, Eq)]
pub enum Refusal {
    OutOfRange = 1,
    ShortBuffer = 2,
    LinkLost = 3,
    PacketSize = 4,
    WindowFull = 5,
    FrameSum = 6,
    UnusedCode = 7,
    ControlSize = 8,
    Unexpected = 9,
    ChainFault = 10,
    OtherChannel = 11,
    SecuredPacket = 12,
    MessageSize = 13,
    TooLong = 14,
    FaultTold = 15,
    NoSuchPacket = 16,
    FrameSize = 17,
    FrameLength = 18,
    // ---- registers
    UnknownRegister = 19,
    RegisterAccess = 20,
    RegisterSize = 21,
    RegisterValue = 22,
    // ---- the outbox
    OutboxFull = 23,
    OutboxRoom = 24,
    NumberHeld = 25,
    NumberNotHeld = 26,
    MessageBegun = 27,
    // ---- channels, restarts
    ChannelCount = 28,
    RestartCount = 29,
    // ---- images
    ImageLength = 30,
    ImageVersion = 31,
    ImageField = 32,
    // ---- T=1 blocks
    BlockLimit = 33,
    BlockLength = 34,
    BlockSum = 35,
    BlockHead = 36,
    BlockNumber = 37,
    BlockChain = 38,
    // ---- a message's own length
    FalseLength = 39,
}

impl Refusal {
    pub fn number(self) -> u8
        ensures { result ≡ number_of self }
    {
        self as u8
    }
}

// Of an answer that is no refusal's.
#[derive(Clone, Copy, PartialEq, Eq)]
pub struct NoRefusal;

// Which refusal a call's answer is.
// Stays: a table, since no derive makes one; `Numbered` holds that it goes back from `number`.
impl TryFrom<u8> for Refusal {
    type Error = NoRefusal;

    ghost try_from_gives = { Numbered };

    fn try_from(answer: u8) -> Result<Refusal, NoRefusal> {
        match answer {
            1 => Ok(Refusal::OutOfRange),
            2 => Ok(Refusal::ShortBuffer),
            3 => Ok(Refusal::LinkLost),
            4 => Ok(Refusal::PacketSize),
            5 => Ok(Refusal::WindowFull),
            6 => Ok(Refusal::FrameSum),
            7 => Ok(Refusal::UnusedCode),
            8 => Ok(Refusal::ControlSize),
            9 => Ok(Refusal::Unexpected),
            10 => Ok(Refusal::ChainFault),
            11 => Ok(Refusal::OtherChannel),
            12 => Ok(Refusal::SecuredPacket),
            13 => Ok(Refusal::MessageSize),
            14 => Ok(Refusal::TooLong),
            15 => Ok(Refusal::FaultTold),
            16 => Ok(Refusal::NoSuchPacket),
            17 => Ok(Refusal::FrameSize),
            18 => Ok(Refusal::FrameLength),
            19 => Ok(Refusal::UnknownRegister),
            20 => Ok(Refusal::RegisterAccess),
            21 => Ok(Refusal::RegisterSize),
            22 => Ok(Refusal::RegisterValue),
            23 => Ok(Refusal::OutboxFull),
            24 => Ok(Refusal::OutboxRoom),
            25 => Ok(Refusal::NumberHeld),
            26 => Ok(Refusal::NumberNotHeld),
            27 => Ok(Refusal::MessageBegun),
            28 => Ok(Refusal::ChannelCount),
            29 => Ok(Refusal::RestartCount),
            30 => Ok(Refusal::ImageLength),
            31 => Ok(Refusal::ImageVersion),
            32 => Ok(Refusal::ImageField),
            33 => Ok(Refusal::BlockLimit),
            34 => Ok(Refusal::BlockLength),
            35 => Ok(Refusal::BlockSum),
            36 => Ok(Refusal::BlockHead),
            37 => Ok(Refusal::BlockNumber),
            38 => Ok(Refusal::BlockChain),
            39 => Ok(Refusal::FalseLength),
            _ => Err(NoRefusal),
        }
    }
}

// What a call answers: of a refusal its number, else DONE.
pub fn told(outcome: Result<(), Refusal>) -> u8
    ensures { result ≡ answer_of outcome }
{
    match outcome {
        Ok(()) => DONE,
        Err(refusal) => refusal.number(),
    }
}
