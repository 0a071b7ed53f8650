// The stored images, run through `btree_v2_write::write`, and the limits of its numbers; each answer is counted once.

ghost use Rattle.std.specs.Prelude.{◌≡◌, ◌+◌, ◌≤◌, length};

use crate::image_answers::{IMAGE_BYTES, IMAGE_ROWS};
use crate::rows;
use crate::rows::MARK;
use crate::tally::Tally;
use format::Request;
use node_info::Geometry;

// The five numbers of the answer to a write of a request into these buffers.
fn write(request: Request, records: &[u8], header: &mut [u8], image: &mut [u8]) -> [u64; 5]
    ensures numbers { length result ≡ 5 }
    ensures header { length header.new ≡ length header.old }
    ensures image { length image.new ≡ length image.old }
{
    answers::numbers_of(btree_v2_write::write(request, records, header, image))
}

// What a row asks to be written.
fn request(row: &[u64; 14]) -> Request {
    Request {
        tree_type: rows::byte(row[0]),
        record_count: row[1],
        geometry: rows::geometry(row[3], row[2], row[4]),
        length_size: rows::byte(row[5]),
        start: row[6],
    }
}

// Whether the write of a row, of records of its count, has its five numbers and leaves the bytes that are due in the header buffer and in the
// image buffer, which are the next of the stored bytes.
fn agrees(row: &[u64; 14], bytes: &mut &[u8]) -> bool {
    let header_due = rows::next_part(bytes, 64, row[7]);
    let image_due = rows::next_part(bytes, 1024, row[8]);
    let length = ((row[1] % 65536) * (row[2] % 65536)).min(512) as usize;
    let records = &rows::input::<512>(row[1])[..length];
    let header = &mut [MARK; 64][..header_due.len()];
    let image = &mut [MARK; 1024][..image_due.len()];
    let found = write(request(row), records, header, image);
    found[..] == row[9..] && &*header == header_due && &*image == image_due
}

// The stored answers.
pub(crate) fn stored() -> Tally
    ensures { result.agreed + result.differed ≡ 20 }
{
    Tally::of(IMAGE_ROWS.as_chunks().0, &IMAGE_BYTES, agrees)
}

// The answer to four records of 8 bytes in nodes of 40 bytes, with the first at `start`; addresses have two bytes.
fn from(start: u64) -> [u64; 5]
    ensures { length result ≡ 5 }
{
    let geometry = Geometry {
        node_size: 40,
        record_size: 8,
        offset_size: 2,
    };
    let request = Request {
        tree_type: 5,
        record_count: 4,
        geometry,
        length_size: 2,
        start,
    };
    write(request, &[0; 32], &mut [MARK; 26], &mut [MARK; 120])
}

// The answer to so many records of one byte in nodes of 512 bytes; the count has two bytes.
fn counted(count: usize) -> [u64; 5]
    requires { count ≤ 65536 }
    ensures { length result ≡ 5 }
{
    let geometry = Geometry {
        node_size: 512,
        record_size: 1,
        offset_size: 8,
    };
    let request = Request {
        tree_type: 5,
        record_count: count as u64,
        geometry,
        length_size: 2,
        start: 0,
    };
    write(
        request,
        &[0; 65536][..count],
        &mut [MARK; 32],
        &mut [MARK; 81920],
    )
}

// The largest start for addresses of two bytes and the largest count of two bytes, and one more than each.
pub(crate) fn limits() -> Tally
    ensures { result.agreed + result.differed ≡ 4 }
{
    Tally::default()
        .with(from(65415) == [0, 1, 3, 2, 120])
        .with(from(65416) == [14, 65416, 0, 0, 0])
        .with(counted(65535) == [0, 2, 136, 132, 69632])
        .with(counted(65536) == [13, 65536, 0, 0, 0])
}
