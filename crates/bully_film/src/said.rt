//! What a row says beside the word of its event and a node.
ghost use Rattle.std.specs.Prelude.{◌≡◌};
ghost use Rattle.bully_film.specs.Scene.{is_bare};

use bully_base::OutOfMemory;
use bully_calls::EventKind;
use bully_rows::Row;
use std::alloc::Global;
use std::marker::Model;

/// A row that says more than the word of its event and a node; nothing of one that says no more.
// (kept apart, so that a scene takes hardly more memory where there is nothing, as of most rows)
#[derive(Drop)]
pub struct Said {
    row: Option<Box<Row>>,
}

impl Model for Said {
    ghost use Rattle.std.specs.Prelude.{Option, option_map};
    ghost use Rattle.bully_rows.specs.declared.trace.Row.{Row};

    ghost Value = { Option Row };

    ghost view = { λ s. option_map (λ b. b.value) s.row };
}

impl Said {
    ghost use Rattle.std.specs.Prelude.{◌≡◌, None, IfOk};
    ghost use Rattle.std.specs.Option.{option_copied};
    ghost use Rattle.bully_film.specs.Scene.{said_in};

    /// Nothing.
    #[inline(always)]
    pub fn nothing() -> Said
        ensures { result ≡ None }
    {
        Said { row: None }
    }

    /// What this row says. Refused where an allocation fails.
    pub fn by(alloc: Global, row: Row) -> Result<Said, OutOfMemory>
        ensures { IfOk result (λ said. said ≡ said_in row) }
    {
        if is_bare(&row) {
            return Ok(Said::nothing());
        }
        Ok(Said {
            row: Some(Box::new(alloc, row)?),
        })
    }

    /// The row, where it says more.
    pub fn row(&self) -> Option<&Row>
        ensures { option_copied result ≡ self.now }
    {
        match &self.row {
            Some(row) => Some(&**row),
            None => None,
        }
    }
}

// Whether the row is the word of its event and a node.
fn is_bare(row: &Row) -> bool
    ensures { result ≡ is_bare row.now }
{
    match row {
        Row::Event(event) => matches!(event.kind(), EventKind::Node(_)),
        _ => false,
    }
}
