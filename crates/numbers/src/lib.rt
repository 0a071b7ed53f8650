// Numbers: little-endian in byte slices, parts of these and items put into slices; the byte width of a count, and the sizes that offsets and
// lengths may have.

#![tactic(auto)]

ghost use Rattle.std.specs.Prelude.{◌≡◌, ◌+◌, min, leb, length};
ghost use Rattle.numbers.specs.Numbers.{pick, le, part, num, width, field_size};
ghost use Rattle.numbers.specs.Places.{put};

// The number in the `width` bytes at `at`, lowest first; of a field that runs past the end, its bytes before the end. A width above 8
// counts as 8.
pub fn read_le(data: &[u8], at: usize, width: usize) -> u64
    ensures { result ≡ num «data».now at (min width 8) }
{
    part(data, at as u64, width.min(8) as u64)
        .iter()
        .rev()
        .fold(0, |x: u64, byte| (x << 8) | u64::from(*byte))
}

// Puts x at `at`, lowest byte first, into `width` bytes, where these fit, and gives the place after them; else changes nothing and gives
// `at`, which is promised and can't fail, so no Option. By remainders: a width may be above the eight bytes that `to_le_bytes` has.
#[tactic(auto, using(crate::proofs::Writing::written_start, crate::proofs::Writing::written_end, crate::proofs::Writing::not_written))]
pub fn write_le(data: &mut [u8], at: usize, x: u64, width: usize) -> usize
    ensures { («data».new ≡ put «data».old at (le width x)) × (result ≡ pick (leb (at + width) (length «data».old)) (at + width) at) }
{
    if at <= data.len() && width <= data.len() - at {
        let mut rest = x;
        for byte in &mut data[at..at + width] {
            *byte = (rest % 256) as u8;
            rest /= 256;
        }
        return at + width;
    }
    at
}

// The `count` bytes from `at` on, or as many as there are.
pub fn part(data: &[u8], at: u64, count: u64) -> &[u8]
    ensures { result.now ≡ part «data».now at count }
{
    let rest = &data[at.min(data.len() as u64) as usize..];
    &rest[..count.min(rest.len() as u64) as usize]
}

// Copies a slice over another of the same length. A loop: `copy_from_slice` calls the C library's memmove, which no archive needs for anything else.
fn copy<T: Copy>(to: &mut [T], from: &[T])
    requires { length to.old ≡ length from.now }
    ensures { to.new ≡ from.now }
{
    for (i, item) in from.iter().enumerate() {
        to[i] = *item;
    }
}

// Puts items at `at` where they fit; else changes nothing, which is promised and can't fail, so no Option.
#[tactic(auto, using(crate::proofs::Copying::items_put, crate::proofs::Lists::put_not))]
pub fn put<T: Copy>(data: &mut [T], at: usize, items: &[T])
    ensures { «data».new ≡ put «data».old at items.now }
{
    let (len, count) = (data.len(), items.len());
    if at <= len && count <= len - at {
        copy(&mut data[at..at + count], items);
    }
}

// The number of bytes that hold a count: 1 for zero.
#[tactic(auto, using(crate::proofs::Numbers::width_bits))]
pub fn bytes_for_max_records(max_nrec: u64) -> u8
    ensures { result ≡ width max_nrec }
{
    let bits = u64::BITS - max_nrec.leading_zeros();
    bits.div_ceil(8).max(1) as u8
}

// Whether offsets or lengths may have this size.
#[tactic(auto, unfolding(crate::specs::Numbers::field_size))]
pub fn is_field_size(size: u8) -> bool
    ensures { result ≡ field_size size }
{
    matches!(size, 2 | 4 | 8)
}
