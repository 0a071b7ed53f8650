// The causes for which a call is refused, and the number and values of each. A test answers `Result<(), Refusal>`.

#![tactic(auto)]

ghost use Rattle.std.specs.Prelude.{◌≡◌};
ghost use Rattle.refusal.specs.Told.{cause_told, verdict_told};

// A cause, named as in hdf5-pure where that has it.
#[derive(Clone, Copy, Debug, PartialEq, Eq)]
pub enum Refusal {
    // 1: the file ends early
    UnexpectedEof { expected: u64, available: u64 },
    // 2: a signature is not the one due
    InvalidBTreeV2Signature,
    // 3: the header's version is not 0
    InvalidBTreeV2Version(u8),
    // 4: the offset size is not 2, 4 or 8
    InvalidOffsetSize(u8),
    // 5: the length size is not 2, 4 or 8
    InvalidLengthSize(u8),
    // 6: the stored checksum is not the computed one
    ChecksumMismatch { expected: u32, computed: u32 },
    // 7: the node size is outside 10 to 65,536
    InvalidNodeSize(u32),
    // 8: the record size is zero
    ZeroRecordSize,
    // 9: more than 16,777,215 records
    TooManyRecords(u64),
    // 10: a needed level holds no record
    LevelHoldsNone(u16),
    // 11: a subtree has too few records for its depth
    SubtreeTooThin,
    // 12: the record buffer is not as long as the records
    RecordBufferLength(u64),
    // 13: the record count does not fit the length size
    CountAboveLengthSize(u64),
    // 14: start plus image is above the largest number of the offset size
    AddressAboveOffsetSize(u64),
    // 15: an output is too short
    OutputTooShort(u64),
    // 16: the depth is above 32
    DepthAboveLimit(u16),
    // 17: the key's field has not 1 to 8 bytes, or runs past the record's end
    InvalidKeyField,
    // 18: the base is beyond the file's length
    BaseBeyondFile,
    // 19: the tree type is not 5, 6, 8 or 9
    UnknownRecordType,
    // 20: a record's length is not its type's, or a value is too large for its field
    RecordTypeMismatch,
}

// A cause's number and its values, 0 where it has fewer than two.
#[derive(Clone, Copy, Debug, PartialEq, Eq)]
pub struct Code {
    pub number: u64,
    pub first: u64,
    pub second: u64,
}

fn of_two(number: u64, first: u64, second: u64) -> Code
    ensures { (result.number ≡ number) × (result.first ≡ first) × (result.second ≡ second) }
{
    Code {
        number,
        first,
        second,
    }
}

impl From<Refusal> for Code {
    ghost from_gives = { cause_told };

    #[tactic(auto, using(crate::proofs::Answers::told_alone, crate::proofs::Answers::told_one, crate::proofs::Answers::told_two))]
    fn from(cause: Refusal) -> Code {
        match cause {
            Refusal::UnexpectedEof {
                expected,
                available,
            } => of_two(1, expected, available),
            Refusal::InvalidBTreeV2Signature => of_two(2, 0, 0),
            Refusal::InvalidBTreeV2Version(version) => of_two(3, version as u64, 0),
            Refusal::InvalidOffsetSize(size) => of_two(4, size as u64, 0),
            Refusal::InvalidLengthSize(size) => of_two(5, size as u64, 0),
            Refusal::ChecksumMismatch { expected, computed } => {
                of_two(6, expected as u64, computed as u64)
            }
            Refusal::InvalidNodeSize(size) => of_two(7, size as u64, 0),
            Refusal::ZeroRecordSize => of_two(8, 0, 0),
            Refusal::TooManyRecords(count) => of_two(9, count, 0),
            Refusal::LevelHoldsNone(level) => of_two(10, level as u64, 0),
            Refusal::SubtreeTooThin => of_two(11, 0, 0),
            Refusal::RecordBufferLength(length) => of_two(12, length, 0),
            Refusal::CountAboveLengthSize(count) => of_two(13, count, 0),
            Refusal::AddressAboveOffsetSize(start) => of_two(14, start, 0),
            Refusal::OutputTooShort(length) => of_two(15, length, 0),
            Refusal::DepthAboveLimit(depth) => of_two(16, depth as u64, 0),
            Refusal::InvalidKeyField => of_two(17, 0, 0),
            Refusal::BaseBeyondFile => of_two(18, 0, 0),
            Refusal::UnknownRecordType => of_two(19, 0, 0),
            Refusal::RecordTypeMismatch => of_two(20, 0, 0),
        }
    }
}

// A verdict's number and values: those of the refusal, zeros where there is none.
impl From<Result<(), Refusal>> for Code {
    ghost from_gives = { verdict_told };

    #[tactic(auto, using(crate::proofs::Answers::told_accepted))]
    fn from(verdict: Result<(), Refusal>) -> Code {
        match verdict {
            Ok(()) => of_two(0, 0, 0),
            Err(cause) => Code::from(cause),
        }
    }
}
