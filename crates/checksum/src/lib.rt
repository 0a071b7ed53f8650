// Bob Jenkins' lookup3 (hashlittle, start value 0), the checksum of HDF5's metadata.

#![tactic(auto)]

ghost use Rattle.std.specs.Prelude.{◌≡◌, ◌<◌};
ghost use Rattle.checksum.specs.Lookup3.{mix_line_of, mixed, final_line_of, final_mixed, started, word, block_added, ended, lookup3};

// The three words of lookup3's state.
#[derive(Clone, Copy)]
pub struct Words {
    pub a: u32,
    pub b: u32,
    pub c: u32,
}

impl Words {
    // The words at the start, from the length modulo 2^32.
    #[tactic(auto, unfolding(crate::specs::Lookup3::started))]
    fn start(length: usize) -> Words
        ensures { result ≡ started length }
    {
        // by a remainder: `as` alone does not cut, and by the first four bytes of `to_le_bytes` it is no plainer
        let s = 0xdeadbeef_u32.wrapping_add((length % 0x1_0000_0000) as u32);
        Words { a: s, b: s, c: s }
    }

    // One line of mix; the letters move on by one place.
    #[tactic(auto, using(crate::proofs::Laws::rotate_left_is), unfolding(crate::specs::Lookup3::mix_line_of))]
    fn mix_line(self, k: u32) -> Words
        requires { (0 < k) × (k < 32) }
        ensures { result ≡ mix_line_of k self }
    {
        Words {
            a: self.b,
            b: self.c.wrapping_add(self.b),
            c: self.a.wrapping_sub(self.c) ^ self.c.rotate_left(k),
        }
    }

    // The mixing round of a block that is not the last.
    #[tactic(auto, unfolding(crate::specs::Lookup3::mixed))]
    fn mix(self) -> Words
        ensures { result ≡ mixed self }
    {
        self.mix_line(4)
            .mix_line(6)
            .mix_line(8)
            .mix_line(16)
            .mix_line(19)
            .mix_line(4)
    }

    // One line of final_mix; the letters move on by one place.
    #[tactic(auto, using(crate::proofs::Laws::rotate_left_is), unfolding(crate::specs::Lookup3::final_line_of))]
    fn final_line(self, k: u32) -> Words
        requires { (0 < k) × (k < 32) }
        ensures { result ≡ final_line_of k self }
    {
        Words {
            a: self.b,
            b: (self.c ^ self.b).wrapping_sub(self.b.rotate_left(k)),
            c: self.a,
        }
    }

    // The mixing round of the last block.
    #[tactic(auto, unfolding(crate::specs::Lookup3::final_mixed))]
    fn final_mix(self) -> Words
        ensures { result ≡ final_mixed self }
    {
        let Words { a, b, c } = self
            .final_line(14)
            .final_line(11)
            .final_line(25)
            .final_line(16)
            .final_line(4)
            .final_line(14)
            .final_line(24);
        Words { a: c, b: a, c: b }
    }

    // The first twelve bytes of a block added to the words.
    #[tactic(auto, unfolding(crate::specs::Lookup3::block_added))]
    fn add(self, block: &[u8]) -> Words
        ensures { result ≡ block_added self block.now }
    {
        Words {
            a: self.a.wrapping_add(word_at(block, 0)),
            b: self.b.wrapping_add(word_at(block, 4)),
            c: self.c.wrapping_add(word_at(block, 8)),
        }
    }

    // The checksum, once at most twelve bytes are left.
    #[tactic(auto, using(crate::proofs::Laws::ended_none, crate::proofs::Laws::ended_some))]
    fn end(self, rest: &[u8]) -> u32
        ensures { result ≡ ended self rest.now }
    {
        if rest.is_empty() {
            return self.c;
        }
        self.add(rest).final_mix().c
    }
}

// The little-endian word from i on; a byte past the end counts as 0.
#[tactic(auto, using(crate::proofs::Laws::word_of, crate::proofs::Laws::word_past))]
fn word_at(bytes: &[u8], i: usize) -> u32
    ensures { result ≡ word bytes.now i }
{
    match bytes.get(i..) {
        Some([a, b, c, d, ..]) => u32::from_le_bytes([*a, *b, *c, *d]),
        Some([a, b, c]) => u32::from_le_bytes([*a, *b, *c, 0]),
        Some([a, b]) => u32::from_le_bytes([*a, *b, 0, 0]),
        Some([a]) => *a as u32,
        _ => 0,
    }
}

// The checksum of a slice of any length.
#[tactic(auto, using(crate::proofs::Laws::blocks_start, crate::proofs::Laws::blocks_turn, crate::proofs::Laws::blocks_end))]
pub fn jenkins_lookup3(data: &[u8]) -> u32
    ensures { result ≡ lookup3 «data».now }
{
    let mut words = Words::start(data.len());
    let mut rest = data;
    while 12 < rest.len() {
        let (block, after) = rest.split_at(12);
        words = words.add(block).mix();
        rest = after;
    }
    words.end(rest)
}
