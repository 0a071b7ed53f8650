// A borrowed look at a leaf's records, and one record copied out.

#![tactic(auto)]

ghost use Rattle.std.specs.Prelude.{◌≡◌, [], IfOk};
ghost use Rattle.btree_v2_leaf_view.specs.Look.{record_seen, look_test_at, look_bytes_at, record_answer_at, record_exit_at};
ghost use Rattle.refusal.specs.Answer.{answer_of, put_answer_of};

use btree_v2_leaf::Leaf;
use refusal::Refusal;

// The records of a leaf that passed its tests. Their count stands beside their bytes: it can't be told from those of records of no bytes.
#[derive(Clone, Copy)]
pub struct LeafView<'a> {
    // end to end
    pub records: &'a [u8],
    pub record_size: u16,
    pub count: u16,
}

impl<'a> LeafView<'a> {
    // A look at a leaf of the part of the file from `base` on.
    #[tactic(auto, unfolding(crate::specs::Look::look_test, crate::specs::Look::look_test_at, crate::specs::Look::look_bytes, crate::specs::Look::look_bytes_at, read_checks::specs::Base::on_part))]
    pub fn new(file: &'a [u8], base: u64, leaf: Leaf) -> Result<LeafView<'a>, Refusal>
        ensures tested { answer_of (λ _. []) result ≡ look_test_at file.now base leaf.record_size leaf.node.address leaf.node.records }
        ensures records { IfOk result (λ view. view.records.now ≡ look_bytes_at file.now base leaf.record_size leaf.node.address leaf.node.records) }
        ensures record_size { IfOk result (λ view. view.record_size ≡ leaf.record_size) }
        ensures count { IfOk result (λ view. view.count ≡ leaf.node.records) }
    {
        let part = read_checks::part_from(file, base)?;
        if leaf.record_size == 0 {
            return Err(Refusal::ZeroRecordSize);
        }
        leaf.check(part)?;
        Ok(LeafView {
            records: leaf.records(part),
            record_size: leaf.record_size,
            count: leaf.node.records,
        })
    }

    pub fn count(self) -> u16
        ensures { result ≡ self.entry.count }
    {
        self.count
    }

    // Record i, or an empty part where i is not below the count: that is promised and can't fail, so no Option. `copy_leaf_record` answers 0
    // bytes of it.
    #[tactic(auto, unfolding(crate::specs::Look::record_seen))]
    pub fn record(self, i: u64) -> &'a [u8]
        ensures { result.now ≡ record_seen self.entry.records.now self.entry.record_size self.entry.count i }
    {
        if self.count as u64 <= i {
            return &self.records[0..0];
        }
        let size = self.record_size as u64;
        numbers::part(self.records, i * size, size)
    }
}

// Record `index` of a leaf of the part of the file from `base` on, copied to the front of the output: its length, 0 where the index is not
// below the count.
#[tactic(auto, using(numbers::proofs::Lists::put_fits, numbers::proofs::Copying::over_stored), unfolding(crate::specs::Look::look_test_at, crate::specs::Look::look_bytes_at, crate::specs::Look::record_answer, crate::specs::Look::record_answer_at, crate::specs::Look::record_exit, crate::specs::Look::record_exit_at, read_checks::specs::Base::on_part))]
pub fn copy_leaf_record(
    file: &[u8],
    base: u64,
    leaf: Leaf,
    index: u64,
    output: &mut [u8],
) -> Result<u64, Refusal>
    ensures answered { put_answer_of result ≡ record_answer_at file.now base leaf.record_size leaf.node.address leaf.node.records index output.old }
    ensures output_left { output.new ≡ record_exit_at file.now base leaf.record_size leaf.node.address leaf.node.records index output.old }
{
    let record = LeafView::new(file, base, leaf)?.record(index);
    if output.len() < record.len() {
        return Err(Refusal::OutputTooShort(output.len() as u64));
    }
    numbers::put(output, 0, record);
    Ok(record.len() as u64)
}
