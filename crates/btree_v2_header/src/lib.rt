// The header reader.

#![tactic(auto)]

ghost use Rattle.std.specs.Prelude.{◌≡◌, true, [], ◌+◌, ◌≤◌, length, MatchResult};
ghost use Rattle.numbers.specs.Numbers.{field_size, part, num};
ghost use Rattle.refusal.specs.Answer.{accepted, refusal_of, verdict_of};
ghost use Rattle.read_checks.specs.Tests.{needs};
ghost use Rattle.btree_v2_header.specs.Header.{with_base, header_at, parsed};
ghost use Rattle.btree_v2_header.specs.Answers.{Parses};
ghost use Rattle.btree_v2_header.specs.Parsing.{ParsesPart, Begun, FieldsThere};

use node_info::Geometry;
use refusal::Refusal;

// The header, as it stands in a file, and the base of that file.
#[derive(Clone, Copy)]
pub struct BTreeV2Header {
    // any number may stand in a file, so this is not an enum of the known types
    pub tree_type: u8,
    pub geometry: Geometry,
    // 0: the root is a leaf
    pub depth: u16,
    pub root_node_address: u64,
    pub num_records_in_root: u16,
    // in all nodes
    pub total_records: u64,
    // addresses count from here on
    pub base: u64,
}

impl BTreeV2Header {
    // The header at `offset` of the part of the file from `base` on, for offsets and lengths of these sizes.
    #[tactic(auto, unfolding(crate::specs::Header::parsed_at, read_checks::specs::Base::on_part))]
    pub fn parse(
        file: &[u8],
        base: u64,
        offset: u64,
        offset_size: u8,
        length_size: u8,
    ) -> Result<BTreeV2Header, Refusal>
        ensures { Parses file.now base offset offset_size length_size result }
    {
        let part = read_checks::part_from(file, base)?;
        let header = HeaderAt {
            part,
            base,
            offset,
            offset_size,
            length_size,
        };
        header.read()
    }
}

// Where a header is: at `offset` of the part of a file from `base` on, for offsets and lengths of these sizes. The base is only carried into
// the header.
#[derive(Clone, Copy)]
struct HeaderAt<'a> {
    part: &'a [u8],
    base: u64,
    offset: u64,
    offset_size: u8,
    length_size: u8,
}

impl HeaderAt<'_> {
    // Its tests, then its fields.
    fn read(&self) -> Result<BTreeV2Header, Refusal>
        ensures { let h = self.now in ParsesPart h.part.now h.base h.offset h.offset_size h.length_size result }
    {
        self.check_start()?;
        self.check_rest()?;
        Ok(self.fields())
    }

    // Its first `count` bytes are there.
    fn ensure_len(&self, count: u64) -> Result<(), Refusal>
        ensures { let h = self.now in verdict_of result ≡ needs (h.offset + count) (length h.part.now) (accepted []) }
    {
        read_checks::ensure_len(self.part, self.offset, count)
    }

    // The tests up to that of the offset size.
    #[tactic(auto, using(numbers::proofs::Reading::num_1), unfolding(crate::specs::Header::parsed))]
    fn check_start(&self) -> Result<(), Refusal>
        ensures { let h = self.now in MatchResult result (λ passed. Begun h.part.now h.offset h.offset_size)
            (λ cause. refusal_of cause ≡ parsed h.part.now h.offset h.offset_size h.length_size) }
    {
        self.ensure_len(4)?;
        let at = self.offset as usize;
        if !read_checks::has_signature(self.part, at, b"BTHD") {
            return Err(Refusal::InvalidBTreeV2Signature);
        }
        self.ensure_len(16)?;
        let version = self.part[at + 4];
        if version != 0 {
            return Err(Refusal::InvalidBTreeV2Version(version));
        }
        node_info::check_offset_size(self.offset_size)
    }

    // The tests from there on.
    #[tactic(auto, unfolding(crate::specs::Header::parsed))]
    fn check_rest(&self) -> Result<(), Refusal>
        requires { let h = self.now in Begun h.part.now h.offset h.offset_size }
        ensures { let h = self.now in MatchResult result (λ passed. FieldsThere h.part.now h.offset h.offset_size h.length_size)
            (λ cause. refusal_of cause ≡ parsed h.part.now h.offset h.offset_size h.length_size) }
    {
        let root_end = 16 + self.offset_size as u64;
        self.ensure_len(root_end)?;
        self.ensure_len(root_end + 2)?;
        node_info::check_length_size(self.length_size)?;
        let fields_end = root_end + 2 + self.length_size as u64;
        self.ensure_len(fields_end)?;
        self.ensure_len(fields_end + 4)?;
        let at = self.offset as usize;
        read_checks::check_checksum(self.part, at, at + fields_end as usize)
    }

    // The fields.
    fn fields(&self) -> BTreeV2Header
        requires { let h = self.now in FieldsThere h.part.now h.offset h.offset_size h.length_size }
        ensures { let h = self.now in result ≡ with_base h.base (header_at h.part.now h.offset h.offset_size h.length_size) }
    {
        let part = self.part;
        let at = self.offset as usize;
        let root_width = self.offset_size as usize;
        BTreeV2Header {
            tree_type: part[at + 5],
            geometry: Geometry {
                node_size: u32::from_le_bytes(bytes_at(part, at + 6)),
                record_size: u16::from_le_bytes(bytes_at(part, at + 10)),
                offset_size: self.offset_size,
            },
            depth: u16::from_le_bytes(bytes_at(part, at + 12)),
            root_node_address: read_sized(part, at + 16, self.offset_size),
            num_records_in_root: u16::from_le_bytes(bytes_at(part, at + 16 + root_width)),
            total_records: read_sized(part, at + 18 + root_width, self.length_size),
            base: self.base,
        }
    }
}

// The N bytes at `at`.
fn bytes_at<const N: usize>(data: &[u8], at: usize) -> [u8; N]
    requires { at + N ≤ length «data».now }
    ensures { result ≡ part «data».now at N }
{
    *data[at..].first_chunk::<N>().unwrap()
}

// The number in the two, four or eight bytes at `at`. By one load, which `numbers::read_le` of a size that varies is not: by that, a header read
// took 1.03 to 1.18 of the Rust's time, and its aim is the Rust's.
#[tactic(auto, using(numbers::proofs::Numbers::field_size_8, crate::proofs::Headers::sized_2, crate::proofs::Headers::sized_4, crate::proofs::Headers::sized_8))]
fn read_sized(data: &[u8], at: usize, size: u8) -> u64
    requires { (field_size size ≡ true) × (at + size ≤ length «data».now) }
    ensures { result ≡ num «data».now at size }
{
    match size {
        2 => u16::from_le_bytes(bytes_at(data, at)) as u64,
        4 => u32::from_le_bytes(bytes_at(data, at)) as u64,
        _ => u64::from_le_bytes(bytes_at(data, at)),
    }
}
