// The numbers and bytes of a stored row, as a call's inputs.

ghost use Rattle.std.specs.Prelude.{◌≡◌, ◌%◌, ◌≤◌, ◌++◌, length, get_or};
ghost use Rattle.header_figures.specs.Figures.{header_from};
ghost use Rattle.replay.specs.Inputs.{bytes_of};

use btree_v2_header::BTreeV2Header;
use node_info::Geometry;
use std::{array, mem};

// Every byte of a lent output before the call.
pub(crate) const MARK: u8 = 238;

// A stored number as a byte, and as a number of 16 and of 32 bits; of a number above that, as the C functions cut it.
// Three functions, each by a remainder: by the first bytes of `to_le_bytes` they are no plainer, nor is a trait with three impls.
pub(crate) fn byte(number: u64) -> u8
    ensures { result ≡ number % 256 }
{
    (number % 256) as u8
}

pub(crate) fn number16(number: u64) -> u16
    ensures { result ≡ number % 65536 }
{
    (number % 65536) as u16
}

pub(crate) fn number32(number: u64) -> u32
    ensures { result ≡ number % 4294967296 }
{
    (number % 4294967296) as u32
}

// Stored numbers as a tree's sizes.
pub(crate) fn geometry(node_size: u64, record_size: u64, offset_size: u64) -> Geometry
    ensures { (result.node_size ≡ node_size % 4294967296) × (result.record_size ≡ record_size % 65536) × (result.offset_size ≡ offset_size % 256) }
{
    Geometry {
        node_size: number32(node_size),
        record_size: number16(record_size),
        offset_size: byte(offset_size),
    }
}

// The first nine stored numbers as a header: its eight figures, and then its offset size.
pub(crate) fn header(numbers: &[u64]) -> BTreeV2Header
    requires { 9 ≤ length numbers.now }
    ensures { result ≡ header_from numbers.now (get_or numbers.now 8 0 % 256) }
{
    header_figures::header_of(numbers, byte(numbers[8]))
}

// Takes the next part off the front of the stored bytes: of its stored length, of `most` at the most, or what there is.
pub(crate) fn next_part<'a>(bytes: &mut &'a [u8], most: usize, stored: u64) -> &'a [u8]
    ensures front { bytes.old.now ≡ result.now ++ bytes.new.now }
    ensures bound { length result.now ≤ most }
{
    match bytes.split_off(..stored.min(most as u64) as usize) {
        Some(part) => part,
        None => mem::take(bytes),
    }
}

// The input that belongs to a number n: byte i is (7 * i + 13 * n + 1) mod 256.
pub(crate) fn input<const N: usize>(n: u64) -> [u8; N]
    ensures { result ≡ bytes_of n N }
{
    array::from_fn(|i| byte(7 * (i as u64 % 256) + 13 * (n % 256) + 1))
}
