// The calls as C functions, on numbers and slices. Each fills its whole answer, an array of numbers behind one pointer: the refusal's
// number, 0 where the call is accepted, then the figures or the refusal's values, then zeros.
// Their parameters, one by one, and their pairs, with a base and without, are the C interface's.

#![tactic(auto)]

ghost use Rattle.std.specs.Prelude.{◌≡◌, [], ◌∷◌};
ghost use Rattle.refusal.specs.Answer.{cells};
ghost use Rattle.node_info.specs.Table.{tabled};
ghost use Rattle.plan.specs.Planned.{plan_answer};
ghost use Rattle.write_checks.specs.Writing.{written, header_exit, image_exit};
ghost use Rattle.btree_v2_header.specs.Header.{parsed, parsed_at};
ghost use Rattle.btree_v2_collect.specs.Collect.{collected, collected_at, run_cells, run_output};
ghost use Rattle.btree_v2_find.specs.Find.{found, found_at};
ghost use Rattle.btree_v2_leaf_view.specs.Look.{record_answer, record_exit, record_answer_at, record_exit_at};
ghost use Rattle.btree_v2_record.specs.Records.{record_read, record_written, record_output};
ghost use Rattle.btree_v2.specs.Given.{asked, field_at};
ghost use Rattle.header_figures.specs.Figures.{sizes, given, header_from};

use btree_v2_collect::collect;
use btree_v2_header::BTreeV2Header;
use btree_v2_leaf::{Leaf, Node};
use btree_v2_leaf_view::copy_leaf_record;
use btree_v2_record::RecordValues;
use field::Field;
use format::Request;
use header_figures::header_of;
use node_info::{Geometry, NodeInfo};
use plan::BTreeV2Plan;

// The capacity table up to a depth: width of a record count, and for the levels 0 to 32 the records of a node, then those of a subtree,
// then the width of a subtree's total.
#[unsafe(no_mangle)]
pub extern "C" fn btree_v2_node_info(
    node_size: u32,
    record_size: u16,
    offset_size: u8,
    depth: u16,
    answer: &mut [u64; 101],
)
    ensures { answer.new ≡ cells 101 (tabled (sizes node_size record_size offset_size) depth) }
{
    let geometry = Geometry {
        node_size,
        record_size,
        offset_size,
    };
    answer_columns::put_node_info(answer, &NodeInfo::compute(geometry, depth));
}

// The plan: depth, nodes, leaves, image size.
#[unsafe(no_mangle)]
pub extern "C" fn btree_v2_plan(
    record_count: u64,
    record_size: u16,
    node_size: u32,
    offset_size: u8,
    answer: &mut [u64; 5],
)
    ensures { answer.new ≡ cells 5 (plan_answer record_count (sizes node_size record_size offset_size)) }
{
    let geometry = Geometry {
        node_size,
        record_size,
        offset_size,
    };
    let planned = BTreeV2Plan::new(record_count, geometry);
    *answer = answers::numbers_of(planned);
}

// A tree written: the header, the image, and the answer as the plan's.
#[unsafe(no_mangle)]
pub extern "C" fn btree_v2_write(
    tree_type: u8,
    record_count: u64,
    record_size: u16,
    node_size: u32,
    offset_size: u8,
    length_size: u8,
    start: u64,
    records: &[u8],
    header: &mut [u8],
    image: &mut [u8],
    answer: &mut [u64; 5],
)
    ensures answered { answer.new ≡ cells 5 (written (asked tree_type record_count (sizes node_size record_size offset_size) length_size start)
        records.now header.old image.old) }
    ensures header_left { header.new ≡ header_exit (asked tree_type record_count (sizes node_size record_size offset_size) length_size start)
        records.now header.old image.old }
    ensures image_left { image.new ≡ image_exit (asked tree_type record_count (sizes node_size record_size offset_size) length_size start)
        records.now header.old image.old }
{
    let geometry = Geometry {
        node_size,
        record_size,
        offset_size,
    };
    let request = Request {
        tree_type,
        record_count,
        geometry,
        length_size,
        start,
    };
    let written = btree_v2_write::write(request, records, header, image);
    *answer = answers::numbers_of(written);
}

// The reading calls. Those that end in `_at` read the part of a file from a base on, and count every place in it; the others read with base 0.

// The header at an offset: type, node size, record size, depth, root's address and records, records in all; and the base.
#[tactic(auto, using(crate::proofs::Figures::parse_whole))]
#[unsafe(no_mangle)]
pub extern "C" fn btree_v2_parse(
    file: &[u8],
    offset: u64,
    offset_size: u8,
    length_size: u8,
    answer: &mut [u64; 8],
)
    ensures { answer.new ≡ cells 8 (parsed file.now offset offset_size length_size) }
{
    let parsed = BTreeV2Header::parse(file, 0, offset, offset_size, length_size);
    answers::put_header(answer, parsed);
}

#[unsafe(no_mangle)]
pub extern "C" fn btree_v2_parse_at(
    file: &[u8],
    base: u64,
    offset: u64,
    offset_size: u8,
    length_size: u8,
    answer: &mut [u64; 9],
)
    ensures { answer.new ≡ cells 9 (parsed_at file.now base offset offset_size length_size) }
{
    let parsed = BTreeV2Header::parse(file, base, offset, offset_size, length_size);
    *answer = answers::numbers_of(parsed);
}

// The records of a header's tree put out. The answer has the refusal's number and two values, zeros where the call is accepted, and then,
// refused or not, records put out, leaves, internal nodes, and records from internal nodes.
#[unsafe(no_mangle)]
pub extern "C" fn btree_v2_collect_at(
    file: &[u8],
    header: &[u64; 8],
    offset_size: u8,
    output: &mut [u8],
    answer: &mut [u64; 7],
)
    ensures answered { answer.new ≡ run_cells (collected_at file.now (header_from header.now offset_size) output.old) }
    ensures output_left { output.new ≡ run_output (collected_at file.now (header_from header.now offset_size) output.old) }
{
    let collected = collect::collect_btree_v2_records(file, header_of(header, offset_size), output);
    *answer = answers::collected_numbers(collected);
}

#[tactic(auto, using(btree_v2_collect::proofs::Bases::collected_whole))]
#[unsafe(no_mangle)]
pub extern "C" fn btree_v2_collect(
    file: &[u8],
    tree_type: u8,
    node_size: u32,
    record_size: u16,
    depth: u16,
    root_address: u64,
    root_records: u16,
    total_records: u64,
    offset_size: u8,
    output: &mut [u8],
    answer: &mut [u64; 7],
)
    ensures answered { answer.new ≡ run_cells (collected file.now
        (given tree_type (sizes node_size record_size offset_size) depth root_address root_records total_records 0) output.old) }
    ensures output_left { output.new ≡ run_output (collected file.now
        (given tree_type (sizes node_size record_size offset_size) depth root_address root_records total_records 0) output.old) }
{
    let geometry = Geometry {
        node_size,
        record_size,
        offset_size,
    };
    let header = BTreeV2Header {
        tree_type,
        geometry,
        depth,
        root_node_address: root_address,
        num_records_in_root: root_records,
        total_records,
        base: 0,
    };
    *answer = answers::collected_numbers(collect::collect_btree_v2_records(file, header, output));
}

// The record with the key sought in this field, by the header that the figures tell.
fn find_told(
    file: &[u8],
    figures: &[u64],
    offset_size: u8,
    key_start: u64,
    key_width: u64,
    key: u64,
) -> [u64; 6]
    ensures { result ≡ found_at file.now (header_from figures.now offset_size) (field_at key_start key_width) key }
{
    let field = Field {
        start: key_start,
        width: key_width,
    };
    let found = btree_v2_find::find(file, header_of(figures, offset_size), field, key);
    answers::found_numbers(found)
}

// The record of a header's tree that has the key sought in this field. The answer has the refusal's number and two values, zeros where the
// call is accepted; then, refused or not, the nodes read; then 1 and the record's place, or zeros where none was found.
#[tactic(auto, using(crate::proofs::Figures::find_whole))]
#[unsafe(no_mangle)]
pub extern "C" fn btree_v2_find(
    file: &[u8],
    header: &[u64; 7],
    offset_size: u8,
    key_start: u64,
    key_width: u64,
    key: u64,
    answer: &mut [u64; 6],
)
    ensures { answer.new ≡ found file.now (header_from header.now offset_size) (field_at key_start key_width) key }
{
    *answer = find_told(file, header, offset_size, key_start, key_width, key);
}

#[unsafe(no_mangle)]
pub extern "C" fn btree_v2_find_at(
    file: &[u8],
    header: &[u64; 8],
    offset_size: u8,
    key_start: u64,
    key_width: u64,
    key: u64,
    answer: &mut [u64; 6],
)
    ensures { answer.new ≡ found_at file.now (header_from header.now offset_size) (field_at key_start key_width) key }
{
    *answer = find_told(file, header, offset_size, key_start, key_width, key);
}

// Record `index` of a leaf, copied to the front of the output: its length, 0 where the index is not below the count.
#[unsafe(no_mangle)]
pub extern "C" fn btree_v2_leaf_record_at(
    file: &[u8],
    base: u64,
    address: u64,
    count: u16,
    record_size: u16,
    index: u64,
    output: &mut [u8],
    answer: &mut [u64; 3],
)
    ensures answered { answer.new ≡ cells 3 (record_answer_at file.now base record_size address count index output.old) }
    ensures output_left { output.new ≡ record_exit_at file.now base record_size address count index output.old }
{
    let node = Node {
        address,
        records: count,
    };
    let copied = copy_leaf_record(file, base, Leaf::new(node, record_size), index, output);
    *answer = answers::numbers_of(copied);
}

#[tactic(auto, using(crate::proofs::Figures::record_whole))]
#[unsafe(no_mangle)]
pub extern "C" fn btree_v2_leaf_record(
    file: &[u8],
    address: u64,
    count: u16,
    record_size: u16,
    index: u64,
    output: &mut [u8],
    answer: &mut [u64; 3],
)
    ensures answered { answer.new ≡ cells 3 (record_answer file.now record_size address count index output.old) }
    ensures output_left { output.new ≡ record_exit file.now record_size address count index output.old }
{
    btree_v2_leaf_record_at(file, 0, address, count, record_size, index, output, answer);
}

// The values of a record by their meaning: name hash, heap id, message flags, creation order.
#[unsafe(no_mangle)]
pub extern "C" fn btree_v2_record_read(tree_type: u8, record: &[u8], answer: &mut [u64; 5])
    ensures { answer.new ≡ cells 5 (record_read tree_type «record».now) }
{
    let read = btree_v2_record::read_record(tree_type, record);
    *answer = answers::numbers_of(read);
}

// A record with these values, put at the front of the output: its length.
#[unsafe(no_mangle)]
pub extern "C" fn btree_v2_record_write(
    tree_type: u8,
    name_hash: u64,
    heap_id: u64,
    message_flags: u64,
    creation_order: u64,
    output: &mut [u8],
    answer: &mut [u64; 3],
)
    ensures answered { answer.new ≡ cells 3 (record_written tree_type (name_hash ∷ heap_id ∷ message_flags ∷ creation_order ∷ []) output.old) }
    ensures output_left { output.new ≡ record_output tree_type (name_hash ∷ heap_id ∷ message_flags ∷ creation_order ∷ []) output.old }
{
    let values = RecordValues {
        name_hash,
        heap_id,
        message_flags,
        creation_order,
    };
    let put = btree_v2_record::write_record(tree_type, values, output);
    *answer = answers::numbers_of(put);
}
