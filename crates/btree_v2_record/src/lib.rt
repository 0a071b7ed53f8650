// Records by their meaning: the values of a record of type 5, 6, 8 or 9 read, and a record written from its values.

#![tactic(auto)]

mod layout;
mod tree_type;

ghost use Rattle.std.specs.Prelude.{◌≡◌, ◌≤◌, length, get_or, set};
ghost use Rattle.numbers.specs.Places.{stored};
ghost use Rattle.refusal.specs.Answer.{put_answer_of};
ghost use Rattle.btree_v2_record.specs.Records.{record_length, record_bytes, values_fit, record_read, record_written, record_output};
ghost use Rattle.btree_v2_record.specs.Answers.{values_of, values_answer_of};
ghost use Rattle.btree_v2_record.specs.Steps.{place_of, fields_of, fields_read, fields_written, fields_output};

use layout::{Field, Meaning};
use refusal::Refusal;
pub use tree_type::TreeType;
use tree_type::TreeType::{AttributeCreationOrder, AttributeName, GroupCreationOrder, GroupName};

// The values of a record; 0 where its type lacks the field. Plain numbers, not an enum by type and not Options: a C caller may give any four numbers
// to be written, and each four has an answer. A value that its type lacks and that is not 0 is refused by 20, as one that is too large for its field.
#[derive(Clone, Copy, Debug, Default, PartialEq, Eq)]
pub struct RecordValues {
    pub name_hash: u64,
    pub heap_id: u64,
    pub message_flags: u64,
    pub creation_order: u64,
}

impl RecordValues {
    // The value with this meaning.
    #[inline(always)]
    fn get(&self, meaning: Meaning) -> u64
        ensures { result ≡ get_or (values_of self.now) (place_of meaning) 0 }
    {
        match meaning {
            Meaning::NameHash => self.name_hash,
            Meaning::HeapId => self.heap_id,
            Meaning::MessageFlags => self.message_flags,
            Meaning::CreationOrder => self.creation_order,
        }
    }

    // These values, with x for the one with this meaning.
    #[inline(always)]
    fn with(mut self, meaning: Meaning, x: u64) -> RecordValues
        ensures { values_of result ≡ set (values_of self) (place_of meaning) x }
    {
        match meaning {
            Meaning::NameHash => self.name_hash = x,
            Meaning::HeapId => self.heap_id = x,
            Meaning::MessageFlags => self.message_flags = x,
            Meaning::CreationOrder => self.creation_order = x,
        }
        self
    }
}

// The functions of a type's fields. No type of its own around the four: its methods would have the same contracts.

// The length of a record with these fields.
#[inline(always)]
fn length_of(fields: &[Field; 4]) -> usize
    ensures { result ≡ record_length (fields_of fields.now) }
{
    fields.iter().map(|field| field.width).sum()
}

// The values in a record with these fields.
#[tactic(auto, using(crate::proofs::Fields::length_left, crate::proofs::Fields::filled_left), unfolding(crate::specs::Steps::fields_read, crate::specs::Steps::filled, crate::specs::Records::record_length))]
#[inline(always)]
fn read_fields(fields: &[Field; 4], record: &[u8]) -> Result<RecordValues, Refusal>
    ensures { values_answer_of result ≡ fields_read (fields_of fields.now) «record».now }
{
    if record.len() != length_of(fields) {
        return Err(Refusal::RecordTypeMismatch);
    }
    let mut values = RecordValues::default();
    let mut at = 0;
    for field in fields {
        values = values.with(field.meaning, numbers::read_le(record, at, field.width));
        at += field.width;
    }
    Ok(values)
}

// Whether every value is small enough for its field.
#[inline(always)]
fn all_fit(fields: &[Field; 4], values: &RecordValues) -> bool
    ensures { result ≡ values_fit (fields_of fields.now) (values_of values.now) }
{
    fields
        .iter()
        .all(|field| field.fits(values.get(field.meaning)))
}

// Puts the record with these fields and values at the front of the output.
#[tactic(auto, using(crate::proofs::Fields::length_left, crate::proofs::Fields::put_left, crate::proofs::Fields::put_all), unfolding(crate::specs::Records::record_bytes, crate::specs::Records::record_length))]
#[inline(always)]
fn put_fields(fields: &[Field; 4], values: &RecordValues, output: &mut [u8])
    requires { record_length (fields_of fields.now) ≤ length output.old }
    ensures { output.new ≡ stored output.old 0 (record_bytes (fields_of fields.now) (values_of values.now)) }
{
    let mut at = 0;
    for field in fields {
        at = numbers::write_le(output, at, values.get(field.meaning), field.width);
    }
}

// The record with these fields and values, put at the front of the output where all is well.
#[tactic(auto, using(numbers::proofs::Copying::over_stored), unfolding(crate::specs::Steps::fields_written, crate::specs::Steps::fields_output))]
#[inline(always)]
fn write_fields(
    fields: &[Field; 4],
    values: &RecordValues,
    output: &mut [u8],
) -> Result<u64, Refusal>
    ensures answered { put_answer_of result ≡ fields_written (fields_of fields.now) (values_of values.now) output.old }
    ensures output_left { output.new ≡ fields_output (fields_of fields.now) (values_of values.now) output.old }
{
    if !all_fit(fields, values) {
        return Err(Refusal::RecordTypeMismatch);
    }
    let length = length_of(fields);
    if output.len() < length {
        return Err(Refusal::OutputTooShort(output.len() as u64));
    }
    put_fields(fields, values, output);
    Ok(length as u64)
}

// Both calls have an arm for each type: in it the fields are known, and the loops over them become a load or a store for each. One call with
// the fields that `TreeType::fields` gives takes about twice the time of the arms, more than its aim of 1.5 of a plain codec's.
// A type is any number, as a C caller gives it: each has an answer, and where no type has the number it is that the type is unknown.

// The values of a record of a type.
#[tactic(auto, using(crate::proofs::Calls::read_in), unfolding(crate::specs::Records::record_read))]
pub fn read_record(tree_type: u8, record: &[u8]) -> Result<RecordValues, Refusal>
    ensures { values_answer_of result ≡ record_read tree_type «record».now }
{
    match TreeType::try_from(tree_type)? {
        GroupName => read_fields(&GroupName.fields(), record),
        GroupCreationOrder => read_fields(&GroupCreationOrder.fields(), record),
        AttributeName => read_fields(&AttributeName.fields(), record),
        AttributeCreationOrder => read_fields(&AttributeCreationOrder.fields(), record),
    }
}

// A record of a type with these values, put at the front of the output.
#[tactic(auto, using(crate::proofs::Calls::written_in, crate::proofs::Calls::output_in), unfolding(crate::specs::Records::record_written, crate::specs::Records::record_output))]
pub fn write_record(tree_type: u8, values: RecordValues, output: &mut [u8]) -> Result<u64, Refusal>
    ensures answered { put_answer_of result ≡ record_written tree_type (values_of values) output.old }
    ensures output_left { output.new ≡ record_output tree_type (values_of values) output.old }
{
    match TreeType::try_from(tree_type)? {
        GroupName => write_fields(&GroupName.fields(), &values, output),
        GroupCreationOrder => write_fields(&GroupCreationOrder.fields(), &values, output),
        AttributeName => write_fields(&AttributeName.fields(), &values, output),
        AttributeCreationOrder => write_fields(&AttributeCreationOrder.fields(), &values, output),
    }
}
