// A number field inside a record: whether a record has it, and its number.

#![tactic(auto)]

ghost use Rattle.std.specs.Prelude.{◌≡◌, ◌+◌, ◌%◌, ◌^◌, min, leb, length};
ghost use Rattle.numbers.specs.Numbers.{pick, num};
ghost use Rattle.field.specs.Field.{number_field};

// Where the field begins in a record, and its bytes, low byte first.
#[derive(Clone, Copy)]
pub struct Field {
    pub start: u64,
    pub width: u64,
}

impl Field {
    // Whether the field has 1 to 8 bytes, and a record of this size has them all.
    #[tactic(auto, using(crate::proofs::Fields::field_empty, crate::proofs::Fields::field_wide, crate::proofs::Fields::field_ends))]
    pub fn is_in(self, record_size: u16) -> bool
        ensures { result ≡ number_field self record_size }
    {
        (1..=8).contains(&self.width) && self.start.saturating_add(self.width) <= record_size as u64
    }

    // The field's number in the record at `place`; of a field that runs past the end of the data, its bytes before the end. A width above 8
    // counts as 8. It is kept of eight bytes by two shifts, where there are eight: of those from the field's start on, or of the data's last.
    // The contract is that of `numbers::read_le` at `place + start`. By that, byte by byte, a find took 1.45 to 1.71 times the plain find's time in
    // nodes of 64 and 512 bytes, and 1.3 is the aim; so a key is read by one load of eight bytes.
    #[tactic(auto, using(crate::proofs::Reading::number_short, crate::proofs::Reading::number_of_eight))]
    pub fn read(self, data: &[u8], place: u64) -> u64
        ensures { result ≡ num «data».now (place + self.start) (min self.width 8) }
    {
        let at = place.saturating_add(self.start) as usize;
        let len = data.len();
        if len < 8 || len <= at {
            return numbers::read_le(data, at, self.width as usize);
        }
        let first = at.min(len - 8);
        let eight = read_eight(&data[first..]) >> (8 * (at - first));
        low_bytes(eight, self.width)
    }
}

// The number in the first 8 bytes; 0 where there are fewer, which is promised and can't fail, so no Option.
#[tactic(auto, using(crate::proofs::Reading::eight_there))]
pub fn read_eight(data: &[u8]) -> u64
    ensures { result ≡ pick (leb 8 (length «data».now)) (num «data».now 0 8) 0 }
{
    data.first_chunk::<8>()
        .map_or(0, |eight| u64::from_le_bytes(*eight))
}

// The number in the low `width` bytes of x; a width above 8 counts as 8.
#[tactic(auto, using(crate::proofs::Reading::low_some))]
fn low_bytes(x: u64, width: u64) -> u64
    ensures { result ≡ x % 256 ^ min width 8 }
{
    if width == 0 {
        return 0;
    }
    let over = 8 * (8 - width.min(8));
    (x << over) >> over
}
