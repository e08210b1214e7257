//! What a profile says: loops of a module, and what was seen in them.
use pv_base::bytes::Bytes;
use pv_base::list::List;

/// What is wrong with a line, in the order in which one line is tested.
#[derive(Clone, Copy, Debug, PartialEq, Eq)]
pub enum ProfileCause {
    /// The first line that is not passed over is another than `privateer-profile 1` and
    /// `privateer-profile 2`, or there is none.
    Head,
    /// An unknown word, as `period` is in version 1, another number of fields, or a field of another shape.
    Word,
    /// A number above 2^63-1, or outside its range.
    Number,
    /// A word out of order, a `period` that does not stand directly after its `loop`, a loop without a block, or a loop
    /// without its end.
    Order,
    /// A line that an earlier one of its loop said, a second phi of one register, or a loop named before.
    Repeat,
    /// A line of more than 4,096 bytes.
    TooLong,
}

/// A name, without its sign: bytes, however they were spelled, or a number.
#[derive(Drop)]
pub enum ProfileName {
    Named(Bytes),
    Numbered(u64),
}

/// An instruction: a function, and the instruction's number in it.
#[derive(Drop)]
pub struct SiteName {
    pub function: ProfileName,
    pub place: u64,
}

/// What made an object: a global, or an instruction.
#[derive(Drop)]
pub enum ObjectName {
    Global(ProfileName),
    At(SiteName),
}

/// What a phi does from one turn to the next.
#[derive(Clone, Copy)]
pub enum PhiWord {
    /// It grows by this, modulo 2 to its width.
    Step(i64),
    /// It stays.
    Same,
    /// It is the result of a reduction.
    Reduce,
}

#[derive(Drop)]
pub struct PhiLine {
    pub register: ProfileName,
    pub guess: PhiWord,
}

/// A slot of an instruction touched an object.
#[derive(Drop)]
pub struct UseLine {
    pub at: SiteName,
    pub slot: u64,
    pub object: ObjectName,
}

/// Bytes that flow from one turn to a later one.
#[derive(Drop)]
pub struct FlowLine {
    pub object: ObjectName,
    pub offset: u64,
    pub length: u64,
}

/// Bytes at each turn's start, 1 to 1,024 of them.
#[derive(Drop)]
pub struct ValueLine {
    pub global: ProfileName,
    pub offset: u64,
    pub bytes: Bytes,
}

/// A loop, by its function and its header, and its lines, each list in the order of the text.
#[derive(Drop)]
pub struct ProfileLoop {
    pub function: ProfileName,
    pub header: ProfileName,
    /// The loop's period length, 1 to 65,533 turns, where the text gives it one.
    pub period: Option<u32>,
    pub blocks: List<ProfileName>,
    pub phis: List<PhiLine>,
    pub uses: List<UseLine>,
    /// Sites whose objects die in their turn.
    pub locals: List<SiteName>,
    pub flows: List<FlowLine>,
    pub values: List<ValueLine>,
}

/// A profile: the version of its text, 1 or 2, and its loops in the order of the text.
#[derive(Drop)]
pub struct Profile {
    pub version: u32,
    pub loops: List<ProfileLoop>,
}
