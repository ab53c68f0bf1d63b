ghost use Rattle.std.specs.Prelude.{◌≡◌, ◌⊎◌, IfOk, IfErr, string_bytes};
ghost use Rattle.bully.specs.Answer.{Tells, stop_line};
ghost use Rattle.bully.specs.RefusalText.{refusal_line, refusal_of_config, refusal_of_plan, refusal_of_table};
ghost use Rattle.bully.specs.RefusalText.{refusal_status};

use crate::telling::{Stop, answer_stop, tell};
use bully_base::OutOfMemory;
use bully_config::ConfigFault;
use bully_table::{PlanFault, TableFault};
use std::alloc::Global;
use std::io::Write;

/// Why a command that reads a configuration does nothing.
#[derive(Clone, Copy)]
pub enum Refusal {
    /// The configuration has a fault of form.
    Config(ConfigFault),
    /// A word names no node of the configuration.
    Member,
    /// The owners of the old table are none.
    Old(TableFault),
    /// Something failed from outside.
    Stop(Stop),
}

impl From<ConfigFault> for Refusal {
    ghost from_gives = { λ fault refusal. refusal ≡ refusal_of_config fault };

    fn from(fault: ConfigFault) -> Refusal {
        match fault {
            ConfigFault::OutOfMemory => Refusal::Stop(Stop::OutOfMemory),
            _ => Refusal::Config(fault),
        }
    }
}

impl From<TableFault> for Refusal {
    ghost from_gives = { λ fault refusal. refusal ≡ refusal_of_table fault };

    fn from(fault: TableFault) -> Refusal {
        match fault {
            TableFault::OutOfMemory => Refusal::Stop(Stop::OutOfMemory),
            _ => Refusal::Old(fault),
        }
    }
}

impl From<PlanFault> for Refusal {
    ghost from_gives = { λ fault refusal. refusal ≡ refusal_of_plan fault };

    fn from(fault: PlanFault) -> Refusal {
        match fault {
            PlanFault::NoMember => Refusal::Member,
            PlanFault::OutOfMemory => Refusal::Stop(Stop::OutOfMemory),
        }
    }
}

/// Tells a refusal on the errors, and its status: 2 for words, 3 for a configuration's form, and 4 for what
/// failed from outside and where there is no memory for the line.
pub fn answer_refusal<E: Write>(alloc: Global, refusal: Refusal, errors: &mut E) -> u8
    ensures { ((result ≡ refusal_status refusal)
        × Tells (E.contents errors.old) (E.contents errors.new) (refusal_line refusal))
        ⊎ ((result ≡ 4) × Tells (E.contents errors.old) (E.contents errors.new) (stop_line Stop.OutOfMemory)) }
{
    match refusal {
        Refusal::Config(fault) => answer_line(config_line(alloc, fault), 3, errors),
        Refusal::Member => {
            tell(errors, "bully: words: Member\n");
            2
        }
        Refusal::Old(fault) => answer_line(table_line(alloc, fault), 2, errors),
        Refusal::Stop(stop) => answer_stop(stop, errors),
    }
}

// Tells a line on the errors, with its status, or that there is no memory for it.
fn answer_line<E: Write>(line: Result<String, OutOfMemory>, status: u8, errors: &mut E) -> u8
    ensures told { IfOk line (λ line. (result ≡ status)
        × Tells (E.contents errors.old) (E.contents errors.new) (string_bytes line)) }
    ensures memory { IfErr line (λ _. (result ≡ 4)
        × Tells (E.contents errors.old) (E.contents errors.new) (stop_line Stop.OutOfMemory)) }
{
    match line {
        Ok(line) => {
            tell(errors, line.as_str());
            status
        }
        Err(_) => answer_stop(Stop::OutOfMemory, errors),
    }
}

// The line of a configuration's fault.
fn config_line(alloc: Global, fault: ConfigFault) -> Result<String, OutOfMemory>
    ensures { IfOk result (λ line. string_bytes line ≡ refusal_line (Refusal.Config fault)) }
{
    let mut line = String::new(alloc);
    writeln!(line, "bully: config: {fault}")?;
    Ok(line)
}

// The line of a fault of the old table.
fn table_line(alloc: Global, fault: TableFault) -> Result<String, OutOfMemory>
    ensures { IfOk result (λ line. string_bytes line ≡ refusal_line (Refusal.Old fault)) }
{
    let mut line = String::new(alloc);
    writeln!(line, "bully: words: {fault}")?;
    Ok(line)
}
