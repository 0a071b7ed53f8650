// Numbers put into a C caller's array: a refusal, and the capacity table's answer, which is made of columns.

#![tactic(auto)]

ghost use Rattle.std.specs.Prelude.{◌≡◌, length};
ghost use Rattle.refusal.specs.Answer.{cells, refusal_of};
ghost use Rattle.node_info.specs.Table.{table_answer};
ghost use Rattle.answer_columns.specs.Columns.{columns_of};

use node_info::{Level, NodeInfo};
use refusal::{Code, Refusal};

// A refusal's number and values, as far as there are places for them, and zeros.
#[tactic(auto, using(crate::proofs::Table::refusal_over))]
pub fn put_refusal(answer: &mut [u64], cause: Refusal)
    ensures { answer.new ≡ cells (length answer.old) (refusal_of cause) }
{
    let code = Code::from(cause);
    let told = [code.number, code.first, code.second];
    let count = answer.len().min(3);
    answer.fill(0);
    numbers::put(answer, 0, &told[..count]);
}

// The table's columns: level by level, an entry into each. A slice, and not an array of 99: the caller would get that as an Option, and have to
// say what it does without.
#[tactic(auto, using(crate::proofs::Table::columns_whole))]
fn put_columns(columns: &mut [u64], levels: &[Level; 33])
    requires { length columns.old ≡ 99 }
    ensures { columns.new ≡ columns_of levels.now }
{
    for (level, entry) in levels.iter().enumerate() {
        columns[level] = entry.max_nrec;
        columns[33 + level] = entry.cum_max_nrec;
        columns[66 + level] = entry.cum_max_nrec_size as u64;
    }
}

// The capacity table, or why there is none. Not by the `numbers_of` of answers: that has no line less, and table and answer, 1.6 KB,
// would be copied.
#[tactic(auto, using(crate::proofs::Table::table_told))]
pub fn put_node_info(answer: &mut [u64; 101], computed: &Result<NodeInfo, Refusal>)
    ensures { answer.new ≡ cells 101 (table_answer computed.now) }
{
    match computed {
        Ok(info) => {
            answer[0] = 0;
            answer[1] = info.max_nrec_size as u64;
            put_columns(&mut answer[2..], &info.levels);
        }
        Err(cause) => put_refusal(answer, *cause),
    }
}
