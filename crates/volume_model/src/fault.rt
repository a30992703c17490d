//! Why calls refuse: each reason with its number.

ghost use Rattle.std.specs.Prelude.{◌≡◌, Some};
ghost use Rattle.volume_model.specs.Names.{fault_text, name_of};
ghost use Rattle.volume_model.specs.Numbers.{number_of};
ghost use Rattle.volume_model.specs.declared.fault.Fault.TheVariants.{NoMemory};

use std::alloc::{AllocError, AllocFailed};
use std::error::Error;
use std::fmt;

/// Why a call refuses, or what is wrong with a text, an expression, a certificate or a plan.
#[derive(Clone, Copy, Debug, PartialEq, Eq)]
pub enum Fault {
    /// The bytes end before the record does.
    Short = 1,
    /// A field of the record isn't allowed.
    BadField = 2,
    /// There are bytes after the record.
    Trailing = 3,
    /// Memory ran out.
    NoMemory = 9,
    /// A threshold that isn't `1 <= k <= n <= 64`.
    BadCount = 10,
    /// An expression of more than six levels.
    TooDeep = 11,
    /// No member of the configuration.
    NotAMember = 12,
    /// The text has another shape than it must.
    Malformed = 13,
    /// There is no item with this number.
    NoSuchItem = 20,
    /// The item could still be satisfied.
    NotDead = 21,
    /// The items aren't the same member.
    NoClash = 22,
    /// The item doesn't need all its children.
    NotAll = 23,
    /// The children that weren't picked could be enough.
    TooFewPicked = 24,
    /// A child doesn't exist, or is named twice.
    BadPair = 25,
    /// There are too few pairs.
    CountTooSmall = 26,
    /// The number of branches isn't that of the children or pairs.
    BranchCount = 27,
    /// Configuration 0 has a parent, or the parent of another one doesn't come before it.
    BadParent = 30,
    /// A fresh member that an ancestor has.
    MemberReused = 31,
    /// A claim without a certificate.
    NoCertificate = 32,
    /// A certificate that doesn't refute its claim.
    Certificate = 33,
    /// A text, an expression or a certificate is larger than allowed.
    OverLimit = 34,
    /// The volume epoch isn't the last one assigned.
    Superseded = 40,
    /// The configuration isn't a child of the present one, or isn't in the plan.
    NotInPlan = 41,
    /// No such group.
    NoGroup = 42,
    /// No volume epoch is left.
    EpochsSpent = 43,
    /// Every group of the plan has joined.
    AllGrown = 44,
    /// The node has promised a later volume epoch.
    StaleVolume = 50,
    /// The node is at a later membership epoch.
    StaleMember = 51,
    /// The node is at an earlier membership epoch.
    AheadMember = 52,
    /// The node's lineage isn't that of the volume epoch.
    NotInstalled = 53,
    /// The node isn't whole yet.
    NotWhole = 54,
    /// The segment holds as many records as it may.
    Full = 55,
    /// The node is whole already.
    AlreadyWhole = 56,
    /// The complete copies aren't those of a read quorum.
    NotEnough = 57,
    /// The segment holds no such record.
    NoRecord = 58,
    /// The piece can't be one of an Install or of a copy.
    BadPiece = 59,
    /// The member keeps no whole pages.
    TailSegment = 60,
    /// The segment isn't complete up to the point.
    PointAhead = 61,
    /// The node has made as many copies as it may.
    SeriesSpent = 62,
    /// The client isn't an open writer.
    NotOpen = 70,
    /// The log would run too far ahead of the durable point.
    LimitReached = 71,
    /// Not a transaction of 1 to 32 valid changes.
    BadTransaction = 72,
    /// No log sequence number (LSN) is left.
    LsnSpent = 73,
    /// Too few members have answered for this step.
    NotReady = 74,
    /// The client has already taken this step.
    AlreadyDone = 75,
    /// The log has no record with this LSN.
    NoLogRecord = 76,
    /// No write quorum has acknowledged the group's Install yet.
    NotJoined = 77,
    /// No such message was made.
    NoMessage = 80,
    /// The message isn't for this actor.
    NotAddressed = 81,
    /// There is no such actor.
    NoActor = 82,
    /// No slot is left for a client.
    NoSlot = 83,
    /// The journal has no cell left.
    JournalFull = 84,
}

impl Fault {
    /// Returns the number with which the program prints the fault.
    pub fn number(self) -> u8
        ensures { result ≡ number_of self }
    {
        self as u8
    }

    /// Returns the name with which the program prints the fault.
    fn name(self) -> &'static str
        ensures { result.now ≡ name_of self }
    {
        match self {
            Fault::Short => "Short",
            Fault::BadField => "BadField",
            Fault::Trailing => "Trailing",
            Fault::NoMemory => "NoMemory",
            Fault::BadCount => "BadCount",
            Fault::TooDeep => "TooDeep",
            Fault::NotAMember => "NotAMember",
            Fault::Malformed => "Malformed",
            Fault::NoSuchItem => "NoSuchItem",
            Fault::NotDead => "NotDead",
            Fault::NoClash => "NoClash",
            Fault::NotAll => "NotAll",
            Fault::TooFewPicked => "TooFewPicked",
            Fault::BadPair => "BadPair",
            Fault::CountTooSmall => "CountTooSmall",
            Fault::BranchCount => "BranchCount",
            Fault::BadParent => "BadParent",
            Fault::MemberReused => "MemberReused",
            Fault::NoCertificate => "NoCertificate",
            Fault::Certificate => "Certificate",
            Fault::OverLimit => "OverLimit",
            Fault::Superseded => "Superseded",
            Fault::NotInPlan => "NotInPlan",
            Fault::NoGroup => "NoGroup",
            Fault::EpochsSpent => "EpochsSpent",
            Fault::AllGrown => "AllGrown",
            Fault::StaleVolume => "StaleVolume",
            Fault::StaleMember => "StaleMember",
            Fault::AheadMember => "AheadMember",
            Fault::NotInstalled => "NotInstalled",
            Fault::NotWhole => "NotWhole",
            Fault::Full => "Full",
            Fault::AlreadyWhole => "AlreadyWhole",
            Fault::NotEnough => "NotEnough",
            Fault::NoRecord => "NoRecord",
            Fault::BadPiece => "BadPiece",
            Fault::TailSegment => "TailSegment",
            Fault::PointAhead => "PointAhead",
            Fault::SeriesSpent => "SeriesSpent",
            Fault::NotOpen => "NotOpen",
            Fault::LimitReached => "LimitReached",
            Fault::BadTransaction => "BadTransaction",
            Fault::LsnSpent => "LsnSpent",
            Fault::NotReady => "NotReady",
            Fault::AlreadyDone => "AlreadyDone",
            Fault::NoLogRecord => "NoLogRecord",
            Fault::NotJoined => "NotJoined",
            Fault::NoMessage => "NoMessage",
            Fault::NotAddressed => "NotAddressed",
            Fault::NoActor => "NoActor",
            Fault::NoSlot => "NoSlot",
            Fault::JournalFull => "JournalFull",
        }
    }
}

/// Writes the number and the name.
impl fmt::Display for Fault {
    ghost output = { λ fault. Some (fault_text fault) };

    fn fmt<W: fmt::Write>(&self, f: &mut fmt::Formatter<W>) -> fmt::Result {
        let number = self.number();
        let name = self.name();
        write!(f, "{number} {name}")
    }
}

impl Error for Fault {}

impl From<AllocError> for Fault {
    ghost from_gives = { λ _ e. e ≡ NoMemory };

    fn from(_e: AllocError) -> Fault {
        Fault::NoMemory
    }
}

impl<T: Drop> From<AllocFailed<T>> for Fault {
    ghost from_gives = { λ _ e. e ≡ NoMemory };

    fn from(_e: AllocFailed<T>) -> Fault {
        Fault::NoMemory
    }
}
