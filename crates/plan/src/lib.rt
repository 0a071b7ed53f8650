// The planner: the shape of the tree that is written for a number of records, without walking its nodes.

#![tactic(auto)]

ghost use Rattle.std.specs.Prelude.{◌≡◌, not, ◌&&◌, ◌+◌, ◌-◌, ◌^◌, ◌≤◌, ◌<◌, ltb, eqb, IfOk, IfErr};
ghost use Rattle.numbers.specs.Numbers.{pick};
ghost use Rattle.node_info.specs.Table.{info_at};
ghost use Rattle.plan.specs.Steps.{Passed, Found, HoldsNone, over_children, FewChildren, Countable, Counted};
ghost use Rattle.plan.specs.Planned.{keeping, distribution, plan_answer, plan_answer_of, Laid};

use node_info::{Geometry, Level, NodeInfo};
use refusal::Refusal;

// The limits of refusal 7.
const NODE_SIZE_MIN: u32 = 10;

const NODE_SIZE_MAX: u32 = 65536;

// The limit of refusal 9.
const RECORDS_MAX: u64 = 16777215;

// The figures of a planned tree.
#[derive(Clone, Copy)]
pub struct BTreeV2Plan {
    pub depth: u16,
    pub nodes: u64,
    pub leaves: u64,
    pub image_size: u64,
}

// A plan with the capacity table of its depth.
#[derive(Clone, Copy)]
pub struct PlanAndTable {
    pub plan: BTreeV2Plan,
    pub info: NodeInfo,
}

// How a node's records are distributed: it keeps `kept`, and of its `kept` + 1 children the first `extra` get `base` + 1 and the others `base`.
#[derive(Clone, Copy)]
pub struct Distribution {
    pub kept: u64,
    pub base: u64,
    pub extra: u64,
}

// The nodes and leaves of a subtree.
#[derive(Clone, Copy)]
struct Counts {
    nodes: u64,
    leaves: u64,
}

impl Distribution {
    // A node keeps `kept` records, and distributes `rest` to its children.
    #[tactic(auto, using(crate::proofs::Counting::keeping_lem))]
    fn new(kept: u64, rest: u64) -> Distribution
        requires { kept + rest < 2 ^ 64 }
        ensures { result ≡ keeping kept rest }
    {
        let children = kept.saturating_add(1);
        Distribution {
            kept,
            base: rest / children,
            extra: rest % children,
        }
    }

    // The counts of a node of which each larger child, and each smaller one, has these.
    fn counts(&self, larger: Counts, smaller: Counts) -> Counts
        requires { FewChildren self.now larger smaller }
        ensures nodes { result.nodes ≡ over_children self.now larger.nodes smaller.nodes + 1 }
        ensures leaves { result.leaves ≡ over_children self.now larger.leaves smaller.leaves }
    {
        let others = self.kept + 1 - self.extra;
        Counts {
            nodes: self.extra * larger.nodes + others * smaller.nodes + 1,
            leaves: self.extra * larger.leaves + others * smaller.leaves,
        }
    }

    // Of child i: `larger` of the first `extra` children, `smaller` of the others.
    pub fn of_child<T: Copy>(&self, i: u64, larger: T, smaller: T) -> T
        ensures { result ≡ pick (ltb i self.now.extra) larger smaller }
    {
        if i < self.extra { larger } else { smaller }
    }
}

// How n records are distributed where each child's subtree holds `most` at most. Two children are what most nodes of a deep tree have: without
// the first case, by the larger of the quotient and 1, plans of small nodes took 1.5 to 4.2 times as long, and the worst one, at 44/8/8, has an aim of
// 0.16 ms.
#[tactic(auto, using(crate::proofs::Distributing::taken_one, crate::proofs::Distributing::taken_quotient))]
pub fn distribute(most: u64, n: u64) -> Distribution
    ensures { result ≡ distribution most n }
{
    if n / 2 <= most {
        return Distribution::new(1, n.saturating_sub(1));
    }
    let kept = n / (most + 1);
    Distribution::new(kept, n - kept)
}

// The counts of a subtree of n records that is not too thin, with these levels below its root.
#[tactic(auto, using(crate::proofs::Counting::less_asks, crate::proofs::Counting::more_asks))]
fn count_subtree(below: &[Level], n: u64) -> Counts
    requires { Countable below.now n }
    ensures { Counted below.now n result }
{
    let Some((child, lower)) = below.split_last() else {
        return Counts {
            nodes: 1,
            leaves: 1,
        };
    };
    let distributed = distribute(child.cum_max_nrec, n);
    let smaller = count_subtree(lower, distributed.base);
    if distributed.extra == 0 {
        return distributed.counts(smaller, smaller);
    }
    let larger = count_subtree(lower, distributed.base + 1);
    distributed.counts(larger, smaller)
}

// Whether n records, not none, are too few for a tree of this depth.
#[tactic(auto, using(crate::proofs::Counting::power_pos, crate::proofs::Counting::thin_test))]
fn is_thin(depth: u16, n: u64) -> bool
    requires { depth ≤ 32 }
    ensures { result ≡ (not (eqb n 0) && ltb n (2 ^ (depth + 1) - 1)) }
{
    n != 0 && n < (1u64 << (depth + 1)) - 1
}

// What a plan is of: a number of records, and sizes, that have passed refusals 4 and 7 to 9.
#[derive(Clone, Copy)]
struct Planning {
    record_count: u64,
    geometry: Geometry,
    ghost passed: { Passed record_count geometry },
}

impl Planning {
    // The search for the depth, which adds levels to the table of the leaves, until one is enough, or holds none. It ends at level 23 at the latest.
    #[tactic(auto, using(crate::proofs::Searching::sought_start, crate::proofs::Searching::sought_empty))]
    fn deepen(&self, info: &mut NodeInfo) -> Result<u16, Refusal>
        requires { info.old ≡ info_at self.now.geometry 0 }
        ensures found { IfOk result (λ depth. Found self.now.record_count self.now.geometry info.new depth) }
        ensures none { IfErr result (λ cause. HoldsNone self.now.record_count self.now.geometry info.new cause) }
    {
        for depth in 0..NodeInfo::LEVEL_LIMIT {
            let level = info.levels[depth as usize];
            if self.record_count <= level.cum_max_nrec {
                return Ok(depth);
            }
            if level.max_nrec == 0 {
                return Err(Refusal::LevelHoldsNone(depth));
            }
            info.add_level_above(self.geometry, depth);
        }
        unreachable!()
    }

    // The plan and its table. Whether a subtree is too thin is decided at the root.
    #[tactic(auto, using(crate::proofs::Laying::level_deep, crate::proofs::Laying::laid_10, crate::proofs::Laying::laid_11, crate::proofs::Laying::image_fits, crate::proofs::Laying::laid_done))]
    fn lay_out(&self) -> Result<PlanAndTable, Refusal>
        ensures { Laid self.now.record_count self.now.geometry result }
    {
        // by value: with `NodeInfo::EMPTY` and `fill(geometry, 0)` in place of this, a write takes 1.2 kB of stack more
        let mut info = NodeInfo::leaf_only(self.geometry);
        let depth = self.deepen(&mut info)?;
        if is_thin(depth, self.record_count) {
            return Err(Refusal::SubtreeTooThin);
        }
        let counts = count_subtree(&info.levels[..depth as usize], self.record_count);
        let plan = BTreeV2Plan {
            depth,
            nodes: counts.nodes,
            leaves: counts.leaves,
            image_size: counts.nodes * (self.geometry.node_size as u64),
        };
        Ok(PlanAndTable { plan, info })
    }
}

// The plan and its table, or the first refusal.
#[tactic(auto, unfolding(crate::specs::Planned::plan_answer))]
pub fn lay_out(record_count: u64, geometry: Geometry) -> Result<PlanAndTable, Refusal>
    ensures { Laid record_count geometry result }
{
    let offset_size = geometry.offset_size;
    let node_size = geometry.node_size;
    node_info::check_offset_size(offset_size)?;
    if !(NODE_SIZE_MIN..=NODE_SIZE_MAX).contains(&node_size) {
        return Err(Refusal::InvalidNodeSize(node_size));
    }
    if geometry.record_size == 0 {
        return Err(Refusal::ZeroRecordSize);
    }
    if RECORDS_MAX < record_count {
        return Err(Refusal::TooManyRecords(record_count));
    }
    let planning = Planning {
        record_count,
        geometry,
    };
    planning.lay_out()
}

impl BTreeV2Plan {
    // The plan alone.
    pub fn new(record_count: u64, geometry: Geometry) -> Result<BTreeV2Plan, Refusal>
        ensures { plan_answer_of result ≡ plan_answer record_count geometry }
    {
        let laid = lay_out(record_count, geometry)?;
        Ok(laid.plan)
    }
}
