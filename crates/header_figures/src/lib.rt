// The header that a C caller's figures tell.

#![tactic(auto)]

ghost use Rattle.std.specs.Prelude.{◌≡◌, get_or};
ghost use Rattle.header_figures.specs.Figures.{header_from};

use btree_v2_header::BTreeV2Header;
use node_info::Geometry;

// Figure i; 0 where there are fewer.
fn figure(figures: &[u64], i: usize) -> u64
    ensures { result ≡ get_or figures.now i 0 }
{
    figures.get(i).copied().unwrap_or(0)
}

// The header that its figures tell, as btree_v2_parse or btree_v2_parse_at gives them, without a base or with one; a number above its field's
// range counts modulo that range: by a remainder, since `as` alone does not cut, and by the first of `to_le_bytes` it is no plainer.
pub fn header_of(figures: &[u64], offset_size: u8) -> BTreeV2Header
    ensures { result ≡ header_from figures.now offset_size }
{
    let geometry = Geometry {
        node_size: (figure(figures, 1) % 0x1_0000_0000) as u32,
        record_size: (figure(figures, 2) % 0x1_0000) as u16,
        offset_size,
    };
    BTreeV2Header {
        tree_type: (figure(figures, 0) % 0x100) as u8,
        geometry,
        depth: (figure(figures, 3) % 0x1_0000) as u16,
        root_node_address: figure(figures, 4),
        num_records_in_root: (figure(figures, 5) % 0x1_0000) as u16,
        total_records: figure(figures, 6),
        base: figure(figures, 7),
    }
}
