//! Verdicts, with the nodes of a lawful trace, or with a sheet.
ghost use Rattle.std.specs.Prelude.{◌≡◌, ◌++◌, IfOk, OnOk, codes, string_bytes};
ghost use Rattle.bully_json.specs.Objects.{comma_behind, node_object, node_objects, sheet_line, verdict_line};
ghost use Rattle.bully_json.specs.Objects.{verdict_members};
ghost use Rattle.bully_world.specs.State.{world_of};

use crate::values::{push_halter, push_last, push_place, push_quoted};
use bully_base::{Node, OutOfMemory};
use bully_handlers::Vector;
use bully_trace::Verdict;
use bully_world::World;
use std::alloc::Global;

/// The line of the verdict, after whose rows the world is so. Refused where an allocation fails.
pub fn verdict_line(alloc: Global, verdict: Verdict, world: &World) -> Result<String, OutOfMemory>
    ensures { IfOk result (λ line. string_bytes line ≡ verdict_line world.now.setup verdict (world_of world.now)) }
{
    let mut object = String::new(alloc);
    object.push('{')?;
    push_verdict(&mut object, verdict)?;
    if let Verdict::Lawful(_) = verdict {
        push_nodes_member(&mut object, world)?;
    }
    object.push_str("}\n")?;
    Ok(object)
}

/// The line of the verdict with its sheet. Refused where an allocation fails.
pub fn sheet_line(alloc: Global, verdict: Verdict, sheet: &str) -> Result<String, OutOfMemory>
    ensures { IfOk result (λ line. string_bytes line ≡ sheet_line verdict sheet.now) }
{
    let mut line = String::new(alloc);
    line.push('{')?;
    push_verdict(&mut line, verdict)?;
    line.push_str(",\"sheet\":")?;
    push_quoted(&mut line, sheet)?;
    line.push_str("}\n")?;
    Ok(line)
}

// Appends the members that tell the verdict.
fn push_verdict(text: &mut String, verdict: Verdict) -> Result<(), OutOfMemory>
    ensures { OnOk result (string_bytes text.new ≡ string_bytes text.old ++ verdict_members verdict) }
{
    match verdict {
        Verdict::Lawful(count) => write!(text, "\"verdict\":\"lawful\",\"events\":{count}"),
        Verdict::Refused(row, cause) => {
            let cause = cause.word();
            write!(
                text,
                "\"verdict\":\"refused\",\"row\":{row},\"cause\":\"{cause}\""
            )
        }
        Verdict::Differs(row) => write!(text, "\"verdict\":\"differs\",\"row\":{row}"),
    }
}

// Appends the member with all nodes of the world.
fn push_nodes_member(text: &mut String, world: &World) -> Result<(), OutOfMemory>
    ensures { OnOk result (string_bytes text.new ≡ string_bytes text.old
        ++ (codes ",\"nodes\":[" ++ node_objects (world_of world.now) world.now.setup.nodes ++ codes "]")) }
{
    text.push_str(",\"nodes\":[")?;
    push_nodes(text, world)?;
    text.push(']')
}

// Appends the objects of all nodes.
fn push_nodes(text: &mut String, world: &World) -> Result<(), OutOfMemory>
    ensures { OnOk result (string_bytes text.new ≡ string_bytes text.old
        ++ node_objects (world_of world.now) world.now.setup.nodes) }
{
    for before in 0..world.setup().nodes() {
        let node = Node::new(before + 1).unwrap();
        push_node(text, before, node, world.vector(node))?;
    }
    Ok(())
}

// Appends the object of the node with this vector, after so many others.
fn push_node(text: &mut String, before: u16, node: Node, vector: &Vector) -> Result<(), OutOfMemory>
    ensures { OnOk result (string_bytes text.new ≡ string_bytes text.old
        ++ (comma_behind before ++ node_object node vector.now.vector)) }
{
    if before > 0 {
        text.push(',')?;
    }
    push_node_object(text, node, vector)
}

// Appends the object of the node with this vector.
#[tactic(auto, unfolding(crate::specs::Objects::node_object))]
fn push_node_object(text: &mut String, node: Node, vector: &Vector) -> Result<(), OutOfMemory>
    ensures { OnOk result (string_bytes text.new ≡ string_bytes text.old ++ node_object node vector.now.vector) }
{
    let number = node.number();
    text.push_str("{\"node\":")?;
    write!(text, "{number},")?;
    push_place(text, vector)?;
    push_halter(text, vector)?;
    push_last(text, vector)
}
