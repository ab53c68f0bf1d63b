ghost use Rattle.std.specs.Prelude.{◌≡◌, ◌≤◌, false, map, length, min, IfOk};
ghost use Rattle.std.specs.List.{list_any};
ghost use Rattle.bully_base.specs.declared.TheConstants.{NODES_MAX};
ghost use Rattle.bully_base.specs.Setup.{is_node};
ghost use Rattle.bully_table.specs.TableText.{pieces_of, names_nobody, is_no_number, owner_of};

use crate::numeral::read_number;
use crate::pieces::Pieces;
use bully_base::{Node, OutOfMemory, Setup};
use std::alloc::Global;

/// What the pieces of a text are.
#[derive(Clone, Copy)]
pub struct Found {
    /// How many there are; 65,535 where there are more.
    pub count: u16,
    /// Whether one is a number, and of no node.
    pub names_nobody: bool,
    /// Whether one is no number.
    pub has_no_number: bool,
}

/// Goes through the text's pieces, and takes no memory.
pub fn look_through(setup: &Setup, text: &[u8]) -> Found
    ensures count { result.count ≡ min (length (pieces_of text.now)) 65535 }
    ensures names_nobody { result.names_nobody ≡ list_any (names_nobody setup.now) (pieces_of text.now) }
    ensures has_no_number { result.has_no_number ≡ list_any is_no_number (pieces_of text.now) }
{
    let mut found = Found {
        count: 0,
        names_nobody: false,
        has_no_number: false,
    };
    let mut pieces = Pieces::of(text);
    while let Some(piece) = pieces.next() {
        found.count = found.count.saturating_add(1);
        match read_number(piece) {
            None => found.has_no_number = true,
            Some(number) => {
                if !is_node(setup, number) {
                    found.names_nobody = true;
                }
            }
        }
    }
    found
}

/// The owners that the text names. Refused where an allocation fails.
pub fn read_owners(alloc: Global, setup: &Setup, text: &[u8]) -> Result<Vec<Node>, OutOfMemory>
    requires owners { list_any (names_nobody setup.now) (pieces_of text.now) ≡ false }
    requires numbers { list_any is_no_number (pieces_of text.now) ≡ false }
    ensures { IfOk result (λ owners. owners.items ≡ map owner_of (pieces_of text.now)) }
{
    let mut owners = Vec::with_capacity(alloc, usize::from(setup.partitions()))?;
    let mut pieces = Pieces::of(text);
    while let Some(piece) = pieces.next() {
        let number = read_number(piece).unwrap();
        owners.push(Node::new(number).unwrap())?;
    }
    Ok(owners)
}

// Whether the setup has a node of this number.
fn is_node(setup: &Setup, number: u16) -> bool
    ensures node { result ≡ is_node setup.now number }
    ensures within { setup.now.nodes ≤ NODES_MAX }
{
    number <= setup.nodes() && 0 < number
}
