// The fields that records are made of.

ghost use Rattle.std.specs.Prelude.{◌≡◌, ◌≤◌, ◌^◌, ltb};

// What a field holds.
#[derive(Clone, Copy)]
pub(crate) enum Meaning {
    NameHash,
    HeapId,
    MessageFlags,
    CreationOrder,
}

// A field: what it holds, and its bytes.
#[derive(Clone, Copy)]
pub(crate) struct Field {
    pub(crate) meaning: Meaning,
    pub(crate) width: usize,
    ghost narrow: { width ≤ 8 },
}

impl Meaning {
    // The field of so many bytes that holds it.
    #[inline(always)]
    pub(crate) fn of(self, width: usize) -> Field
        requires { width ≤ 8 }
        ensures { (result.meaning ≡ self) × (result.width ≡ width) }
    {
        Field {
            meaning: self,
            width,
        }
    }
}

impl Field {
    // Whether a value is below 256 to the power of the width.
    #[tactic(auto, using(crate::proofs::Fields::fits_less))]
    #[inline(always)]
    pub(crate) fn fits(&self, value: u64) -> bool
        ensures { result ≡ ltb value (256 ^ self.now.width) }
    {
        self.width == 8 || value >> (8 * self.width) == 0
    }
}
