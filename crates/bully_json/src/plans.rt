//! Plans.
ghost use Rattle.std.specs.Prelude.{◌≡◌, IfOk, string_bytes};
ghost use Rattle.bully_json.specs.Objects.{plan_line};

use bully_base::OutOfMemory;
use bully_table::{TablePlan, push_owners};
use std::alloc::Global;

/// The line of the plan: the owners from partition 0 on, how many partitions move, and how many could stay. Refused
/// where an allocation fails.
pub fn plan_line(alloc: Global, plan: &TablePlan) -> Result<String, OutOfMemory>
    ensures { IfOk result (λ line. string_bytes line ≡ plan_line plan.now) }
{
    let mut line = String::new(alloc);
    let moves = plan.moves;
    let bound = plan.bound;
    line.push_str("{\"owners\":[")?;
    push_owners(&mut line, &plan.table, ',')?;
    write!(line, "],\"moves\":{moves},\"bound\":{bound}")?;
    line.push_str("}\n")?;
    Ok(line)
}
