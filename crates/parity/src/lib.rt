// The types that the calls share: the numbers of bits and of checks, the outermost checks that hold a pair, the forms of a record, losses, channel values,
// ranges, refusals, and numbers with their values.
#![tactic(auto)]

// A bit's number: sent bits first, then added ones.
#[derive(Clone, Copy, Debug, PartialEq, Eq, PartialOrd, Ord)]
pub struct Bit(pub usize);

// A check's number: given checks first, then added ones.
#[derive(Clone, Copy, Debug, PartialEq, Eq, PartialOrd, Ord)]
pub struct Check(pub usize);

// The lowest and the highest check that hold a pair.
#[derive(Clone, Copy, Debug, PartialEq, Eq)]
pub struct Holders {
    pub low: Check,
    pub high: Check,
}

// The form of a record: the second has the number of each check written out, and the third carries splits besides.
#[derive(Clone, Copy, Debug, PartialEq, Eq)]
pub enum Form {
    First,
    Second,
    Third,
}

// What was recovered and what is left, counted in sent bits and in added bits (M-100).
#[derive(Clone, Copy, Debug, PartialEq, Eq)]
pub struct Losses {
    pub recovered_sent: u64,
    pub recovered_added: u64,
    pub left_sent: u64,
    pub left_added: u64,
}

// A channel value, a message or a result (M-112): a sure bit, a soft value whose sign favours 0 when positive, or erased.
#[derive(Clone, Copy, Debug, PartialEq)]
pub enum Channel {
    Sure(bool),
    Soft(f32),
    Erased,
}

// A low and a high between which a soft value lies (M-113).
#[derive(Clone, Copy, Debug, PartialEq)]
pub struct Ends {
    pub low: f32,
    pub high: f32,
}

// Why a call is refused: document 01's causes, in its order, and those that document 02 adds, each with the values that it returns.
#[derive(Clone, Copy, Debug, PartialEq, Eq)]
pub enum Refusal {
    // 1: the matrix slice is not 4,096 words.
    MatrixLength,
    // 2: n, m or k is outside its range.
    OutOfRange,
    // 3: a one at bit n+k or above, or at check m+k or above.
    OneOutside,
    // 4: rule A is broken.
    RuleABroken,
    // 5: a faulty record word, at a place counted from 0.
    FaultyWord {
        place: usize,
    },
    // 6: the lent record is too short to write.
    RecordTooShort {
        needed: usize,
    },
    // 7: u = v, or either is at n+k or above.
    NotAPair,
    // 8: the share is below two.
    ShareBelowTwo {
        share: u64,
    },
    // 9: k = 392, and a split was asked for.
    NoRoomToSplit,
    // 9: k = 392, and a pair is left to be split after the splits made.
    NoRoomLeft {
        splits: u64,
        sum: u64,
        k: usize,
        held: Option<Holders>,
    },
    // 10: a word, message or set of wrong length.
    WrongLength,
    // 11: a byte outside the values named, at the lowest place.
    WrongByte {
        place: usize,
    },
    // 12: a contradiction in peeling.
    Contradiction,
    // 13: k is above 0 in rank, encoding, mending or joining.
    AddedBits,
    // 14: program input.
    ProgramInput,
    // 15: k = 0, and a split was to be taken back.
    NothingToTakeBack,
    // 16: with the newest split taken back rule A would be broken; or a matrix to write is not one that its splits rebuild.
    CannotTakeBack,
    // 17: no house code has the name.
    UnknownName,
    // 18: a set size outside 1 to 4.
    WrongSize,
    // 19: the lent slice is too short for the sets.
    SetsTooShort {
        needed: usize,
    },
    // 20: two matrices to be joined have different n.
    DifferentLengths,
    // 21: joined, they have more than 120 checks.
    TooManyChecks,
    // 22: rounds outside 1 to 512.
    WrongRounds,
    // 23: a soft float that is not finite or above 1,048,576 in magnitude, at the lowest place.
    WrongFloat {
        place: usize,
    },
    // 24: a low above its high, at the lowest place.
    LowAboveHigh {
        place: usize,
    },
}

// A number and the values that it carries.
#[derive(Clone, Copy, Debug, PartialEq, Eq)]
pub enum Numbered {
    Alone(u32),
    One(u32, u64),
    Two(u32, u64, u64),
    Three(u32, u64, u64, u64),
    Four(u32, u64, u64, u64, u64),
    Five(u32, u64, u64, u64, u64, u64),
}
