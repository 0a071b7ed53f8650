// The writing call: a header and the nodes of a version 2 B-tree, put into two lent buffers.

#![tactic(auto)]

ghost use Rattle.std.specs.Prelude.{◌≡◌};
ghost use Rattle.btree_v2_write.specs.Call.{Accepted, Outputs, Wrote};
ghost use Rattle.plan.specs.Planned.{plan_answer_of};

use crate::node::{Place, Writing};
use btree_v2_stamp::Root;
use format::Request;
use plan::{BTreeV2Plan, PlanAndTable};
use refusal::Refusal;
use write_checks::Lengths;

mod filling;
mod node;
mod subtree;

// Writes an accepted tree: its nodes, and then its header, of what the root came to.
fn write_planned(
    request: &Request,
    planned: &PlanAndTable,
    records: &[u8],
    header: &mut [u8],
    image: &mut [u8],
)
    requires { Accepted request.now planned.now records.now header.old image.old }
    ensures { Outputs request.now records.now header.old image.old header.new image.new }
{
    let writing = Writing {
        request: *request,
        records,
        info: &planned.info,
    };
    let depth = planned.plan.depth;
    let first = Place {
        nodes: 0,
        records: 0,
    };
    let root = writing.write_subtree(image, depth as usize, request.record_count, first);
    let root = Root {
        depth: depth as u64,
        address: writing.node_address(root.nodes - 1),
        records: root.records,
        total: root.total,
    };
    btree_v2_stamp::write_header(header, request, &root);
}

// Writes a tree of the records in the list `records`: its header and its nodes. A refused call changes neither output.
pub fn write(
    request: Request,
    records: &[u8],
    header: &mut [u8],
    image: &mut [u8],
) -> Result<BTreeV2Plan, Refusal>
    ensures { Wrote request records.now header.old image.old (plan_answer_of result) header.new image.new }
{
    let lengths = Lengths {
        records: records.len() as u64,
        header: header.len() as u64,
        image: image.len() as u64,
    };
    let planned = write_checks::check(request, lengths)?;
    write_planned(&request, &planned, records, header, image);
    Ok(planned.plan)
}
