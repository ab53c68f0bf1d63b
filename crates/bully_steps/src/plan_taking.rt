ghost use Rattle.std.specs.Prelude.{◌≡◌, length, IsSome, IfSome, IfErr, OnOk, Some};
ghost use Rattle.std.specs.Option.{option_copied};
ghost use Rattle.bully_calls.specs.declared.call.Outcome.{Outcome};
ghost use Rattle.bully_steps.specs.Prepared.{prepared_from};
ghost use Rattle.bully_steps.specs.Procedure.{state_of};
ghost use Rattle.bully_steps.specs.ProcedureState.{resumed};

use crate::Procedure;
use crate::states::{Calling, Planned, Readied};
use bully_base::OutOfMemory;
use bully_table::Table;
use std::alloc::{AllocError, Global};
use std::mem;

impl Procedure {
    /// Gives the procedure its table, where it is Planning: planned as [`Planning::prepare`](crate::Planning::prepare)
    /// does, from the old one, which has the setup's partitions. Refused where an allocation fails; then it is as it
    /// was.
    pub fn prepare(&mut self, alloc: Global, old: Option<&Table>) -> Result<(), OutOfMemory>
        requires { IfSome (option_copied old) (λ t. length t ≡ (state_of self.old).setup.partitions) }
        ensures prepared { OnOk result (state_of self.new
            ≡ prepared_from (option_copied old.entry) (state_of self.old)) }
        ensures unchanged { IfErr result (λ _. self.new ≡ self.old) }
    {
        if !matches!(self, Procedure::Planning(_)) {
            return Ok(());
        }
        self.prepare_planning(alloc, old)
    }

    // The same, out of line: where the procedure isn't Planning, nothing of it lies on the stack.
    #[inline(never)]
    fn prepare_planning(&mut self, alloc: Global, old: Option<&Table>) -> Result<(), OutOfMemory>
        requires { IfSome (option_copied old) (λ t. length t ≡ (state_of self.old).setup.partitions) }
        ensures prepared { OnOk result (state_of self.new
            ≡ prepared_from (option_copied old.entry) (state_of self.old)) }
        ensures unchanged { IfErr result (λ _. self.new ≡ self.old) }
    {
        let Procedure::Planning(planning) = self else {
            return Ok(());
        };
        let Ok(table) = planning.planned_table(alloc, old) else {
            return Err(AllocError);
        };
        let (identity, up) = (planning.identity, planning.up);
        *self = Procedure::Planned(Planned {
            identity,
            up,
            table,
        });
        Ok(())
    }

    /// The planned table, for its node to take as its task; the procedure goes on by that. It takes no memory. The
    /// table is prepared.
    #[inline(never)]
    pub fn take_plan(&mut self) -> Table
        requires { IsSome (state_of self.old).table }
        ensures table { Some result ≡ (state_of self.old).table }
        ensures procedure { state_of self.new ≡ resumed (state_of self.old) Outcome.Planned }
    {
        let idle = Procedure::idle_in(self.setup(), self.node(), self.generation());
        match mem::replace(self, idle) {
            Procedure::Planned(planned) => {
                *self = Procedure::Readying(Calling {
                    identity: planned.identity,
                    held: Readied { rest: planned.up },
                    awaits: false,
                });
                planned.table
            }
            _ => unreachable!(),
        }
    }
}
