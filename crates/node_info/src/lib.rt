// The capacity table of a version 2 B-tree: what a node and a subtree of each level hold, and the widths of a child pointer's fields.

#![tactic(auto)]

ghost use Rattle.std.specs.Prelude.{◌≡◌, [], ◌∷◌, min, IfOk};
ghost use Rattle.numbers.specs.Numbers.{field_size};
ghost use Rattle.refusal.specs.Answer.{accepted, refused, or_else, verdict_of};
ghost use Rattle.node_info.specs.Capacity.{leaf_capacity, internal_capacity};
ghost use Rattle.node_info.specs.Table.{pointer_size, pointer_in, info_at, no_info, next_level, with_level_above, tabled, table_answer};

use refusal::Refusal;

// Refusal 4 where offsets have none of the sizes that they may have. This and the next are two functions and not one that takes the refusal, since
// each caller would then name its size twice.
pub fn check_offset_size(size: u8) -> Result<(), Refusal>
    ensures { verdict_of result ≡ or_else (field_size size) (refused 4 (size ∷ [])) (accepted []) }
{
    if numbers::is_field_size(size) {
        return Ok(());
    }
    Err(Refusal::InvalidOffsetSize(size))
}

// Refusal 5 where lengths have none of the sizes that they may have.
pub fn check_length_size(size: u8) -> Result<(), Refusal>
    ensures { verdict_of result ≡ or_else (field_size size) (refused 5 (size ∷ [])) (accepted []) }
{
    if numbers::is_field_size(size) {
        return Ok(());
    }
    Err(Refusal::InvalidLengthSize(size))
}

// A tree's sizes in bytes: of a node, of a record, and of an address. Each may be any number, and each number has an answer, so the size of an
// address is not an enum of the three.
#[derive(Clone, Copy)]
pub struct Geometry {
    pub node_size: u32,
    pub record_size: u16,
    pub offset_size: u8,
}

// The bytes of a child pointer's three fields: the child's address, its record count, and its subtree's total.
#[derive(Clone, Copy)]
pub struct ChildPointer {
    pub offset_size: u8,
    pub count_size: u8,
    pub total_size: u8,
}

impl ChildPointer {
    // Its bytes in all (P).
    pub fn size(self) -> u64
        ensures { result ≡ pointer_size self }
    {
        (self.offset_size as u64) + (self.count_size as u64) + (self.total_size as u64)
    }
}

// A level's entries.
#[derive(Clone, Copy)]
pub struct Level {
    // records in a full node (M)
    pub max_nrec: u64,
    // records in a full subtree whose root is of the level (C)
    pub cum_max_nrec: u64,
    // width of such a subtree's total (T)
    pub cum_max_nrec_size: u8,
}

impl Level {
    // A level that holds nothing.
    pub const NONE: Level = Level {
        max_nrec: 0,
        cum_max_nrec: 0,
        cum_max_nrec_size: 0,
    };
}

// The table; a level above the depth that it was made for holds nothing.
#[derive(Clone, Copy)]
pub struct NodeInfo {
    // width of a child's record count (W)
    pub max_nrec_size: u8,
    pub levels: [Level; 33],
}

impl Geometry {
    // Records in a full leaf.
    #[tactic(auto, unfolding(crate::specs::Capacity::leaf_capacity))]
    fn max_records_leaf(self) -> u64
        ensures { result ≡ leaf_capacity self }
    {
        let room = self.node_size.saturating_sub(NodeInfo::OVERHEAD) as u64;
        room.checked_div(self.record_size as u64).unwrap_or(0)
    }

    // Records in a full internal node with child pointers like this.
    #[tactic(auto, unfolding(crate::specs::Capacity::internal_capacity))]
    fn max_records_internal(self, pointer: ChildPointer) -> u64
        ensures { result ≡ internal_capacity self (pointer_size pointer) }
    {
        let size = pointer.size();
        let room = (self.node_size as u64).saturating_sub(NodeInfo::OVERHEAD as u64 + size);
        // without this a table of nodes that hold nothing takes 2.9 times as long: a division at each level
        if room == 0 {
            return 0;
        }
        room.checked_div((self.record_size as u64) + size)
            .unwrap_or(0)
    }
}

// The entries of the level above one whose subtrees hold `under` records, with child pointers like this.
#[tactic(auto, using(crate::proofs::Growing::one_more), unfolding(crate::specs::Table::next_level))]
pub fn level_above(geometry: Geometry, pointer: ChildPointer, under: u64) -> Level
    ensures { result ≡ next_level geometry (pointer_size pointer) under }
{
    let max_nrec = geometry.max_records_internal(pointer);
    let cum_max_nrec = (max_nrec + 1)
        .saturating_mul(under)
        .saturating_add(max_nrec);
    Level {
        max_nrec,
        cum_max_nrec,
        cum_max_nrec_size: numbers::bytes_for_max_records(cum_max_nrec),
    }
}

impl NodeInfo {
    // Bytes of a node beside its records and pointers: signature, version, type, checksum.
    pub const OVERHEAD: u32 = 10;
    // The highest level of a table.
    pub const LEVEL_LIMIT: u16 = 32;

    // A table that holds nothing.
    pub const EMPTY: NodeInfo = NodeInfo {
        max_nrec_size: 0,
        levels: [Level::NONE; 33],
    };

    // The table of nothing.
    #[tactic(auto, unfolding(crate::specs::Table::no_info))]
    pub fn none() -> NodeInfo
        ensures { result ≡ no_info }
    {
        NodeInfo::EMPTY
    }

    // The table of the leaf level alone, from which every table grows.
    pub fn leaf_only(geometry: Geometry) -> NodeInfo
        ensures { result ≡ info_at geometry 0 }
    {
        let mut info = NodeInfo::EMPTY;
        info.fill_leaf(geometry);
        info
    }

    // The same in place.
    #[tactic(auto, unfolding(crate::specs::Table::info_at, crate::specs::Table::entries, crate::specs::Table::column_from, crate::specs::Table::level_at, crate::specs::Capacity::count_width, crate::specs::Capacity::total_width, crate::specs::Capacity::node_capacity, crate::specs::Capacity::subtree_capacity))]
    fn fill_leaf(&mut self, geometry: Geometry)
        ensures { self.new ≡ info_at geometry 0 }
    {
        let max_nrec = geometry.max_records_leaf();
        self.max_nrec_size = numbers::bytes_for_max_records(max_nrec);
        self.levels.fill(Level::NONE);
        self.levels[0] = Level {
            max_nrec,
            cum_max_nrec: max_nrec,
            ..Level::NONE
        };
    }

    // The pointer to a child of this level, in a file whose addresses have `offset_size` bytes.
    pub fn pointer_to(&self, offset_size: u8, level: u16) -> ChildPointer
        ensures { result ≡ pointer_in self.now offset_size level }
    {
        let total_size = self
            .levels
            .get(level as usize)
            .map_or(0, |entries| entries.cum_max_nrec_size);
        ChildPointer {
            offset_size,
            count_size: self.max_nrec_size,
            total_size,
        }
    }

    // Adds the level above this one, where the table has room for it; else changes nothing, which is promised and can't fail.
    #[tactic(auto, unfolding(crate::specs::Table::with_level_above))]
    pub fn add_level_above(&mut self, geometry: Geometry, level: u16)
        ensures { self.new ≡ with_level_above geometry level self.old }
    {
        if level < NodeInfo::LEVEL_LIMIT {
            let pointer = self.pointer_to(geometry.offset_size, level);
            let below = level as usize;
            self.levels[below + 1] = level_above(
                geometry,
                pointer,
                self.levels[below].cum_max_nrec,
            );
        }
    }

    // Makes this the table of a tree of this depth, of the highest level's where it is deeper. In place, since a table that is returned may stand
    // on the caller's stack twice.
    #[tactic(auto, using(crate::proofs::Growing::info_more))]
    pub fn fill(&mut self, geometry: Geometry, depth: u16)
        ensures { self.new ≡ info_at geometry (min depth 32) }
    {
        self.fill_leaf(geometry);
        let top = depth.min(NodeInfo::LEVEL_LIMIT);
        for level in 0..top {
            self.add_level_above(geometry, level);
        }
    }

    // The table of a tree of this depth.
    #[tactic(auto, using(crate::proofs::Columns::table_columns), unfolding(crate::specs::Table::tabled))]
    pub fn compute(geometry: Geometry, depth: u16) -> Result<NodeInfo, Refusal>
        ensures answer { table_answer result ≡ tabled geometry depth }
        ensures table { IfOk result (λ info. info ≡ info_at geometry depth) }
    {
        if NodeInfo::LEVEL_LIMIT < depth {
            return Err(Refusal::DepthAboveLimit(depth));
        }
        let mut info = NodeInfo::EMPTY;
        info.fill(geometry, depth);
        Ok(info)
    }
}
