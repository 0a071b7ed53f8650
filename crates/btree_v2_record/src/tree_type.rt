// The types of trees whose records are known by their meaning, and the fields of each.

ghost use Rattle.std.specs.Prelude.{◌≡◌};
ghost use Rattle.btree_v2_record.specs.Records.{fields_in, field_table};
ghost use Rattle.btree_v2_record.specs.Steps.{fields_of, number_of, Known};

use crate::layout::Field;
use crate::layout::Meaning::{CreationOrder, HeapId, MessageFlags, NameHash};
use refusal::Refusal;

// What a tree's records index.
#[derive(Clone, Copy, Debug, PartialEq, Eq)]
pub enum TreeType {
    GroupName,
    GroupCreationOrder,
    AttributeName,
    AttributeCreationOrder,
}

impl TryFrom<u8> for TreeType {
    type Error = Refusal;

    ghost try_from_gives = { Known };

    #[tactic(auto, unfolding(crate::specs::Records::is_in))]
    fn try_from(tree_type: u8) -> Result<TreeType, Refusal> {
        match tree_type {
            5 => Ok(TreeType::GroupName),
            6 => Ok(TreeType::GroupCreationOrder),
            8 => Ok(TreeType::AttributeName),
            9 => Ok(TreeType::AttributeCreationOrder),
            _ => Err(Refusal::UnknownRecordType),
        }
    }
}

impl TreeType {
    // The fields of a record in their order, and behind them those that the type lacks. These have no bytes, so that no value but 0 fits them. A
    // list of as many as the type has would be an array with its length beside it: there is no heap, and a constant can't lend a list of structs that
    // have an invariant. And over four known fields a loop becomes a load or a store for each.
    #[tactic(auto, unfolding(crate::specs::Records::fields_in))]
    #[inline(always)]
    pub(crate) fn fields(self) -> [Field; 4]
        ensures { fields_of result ≡ fields_in field_table (number_of self) }
    {
        match self {
            TreeType::GroupName => [
                NameHash.of(4),
                HeapId.of(7),
                MessageFlags.of(0),
                CreationOrder.of(0),
            ],
            TreeType::GroupCreationOrder => [
                CreationOrder.of(8),
                HeapId.of(7),
                NameHash.of(0),
                MessageFlags.of(0),
            ],
            TreeType::AttributeName => [
                HeapId.of(8),
                MessageFlags.of(1),
                CreationOrder.of(4),
                NameHash.of(4),
            ],
            TreeType::AttributeCreationOrder => [
                HeapId.of(8),
                MessageFlags.of(1),
                CreationOrder.of(4),
                NameHash.of(0),
            ],
        }
    }
}
