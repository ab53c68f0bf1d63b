use super::turns::with_owners;
use bully_base::{Node, NodeSet, Setup};
use bully_table::{Table, plan};
use rand_core::{Rng, SeedableRng};
use rand_xoshiro::SplitMix64;
use std::alloc::Global;

const NODES: u16 = 64;

const PARTITIONS: u16 = 256;

const TABLES: usize = 64;

/// What the plans of some rounds come to: the sums of their moves and of their bounds, and a number that all their
/// owners make.
#[derive(Drop)]
pub struct Sums {
    pub moves: u64,
    pub bounds: u64,
    pub owners: u64,
}

impl Sums {
    // The sums of no plan.
    fn new() -> Sums {
        Sums {
            moves: 0,
            bounds: 0,
            owners: 0,
        }
    }

    // Plans from the old table for the members of these bits, and adds the plan. A sum goes on at 0 after the largest
    // number. None where there is no plan, as for a table of another length.
    fn add_plan(&mut self, alloc: Global, setup: &Setup, old: &Table, bits: u64) -> Option<()> {
        let members = members_of(bits);
        if old.len() != usize::from(setup.partitions()) || !setup.has_all(&members) {
            return None;
        }
        let made = plan(alloc, *setup, &members, Some(old)).ok()?;
        self.moves = self.moves.wrapping_add(u64::from(made.moves));
        self.bounds = self.bounds.wrapping_add(u64::from(made.bound));
        self.owners = with_owners(self.owners, &made.table);
        Some(())
    }
}

/// Plans as often as asked, from 64 random tables in turn, each time for a random set of members: what the plans come
/// to. None where an allocation fails.
pub fn plan_rounds(alloc: Global, rounds: u32) -> Option<Sums> {
    let mut random = SplitMix64::seed_from_u64(1982);
    let setup = Setup::new(NODES, PARTITIONS, 1).ok()?;
    let tables = random_tables(alloc, &setup, &mut random)?;
    plan_from(alloc, &setup, &mut random, &tables, rounds)
}

// The same, from these tables.
fn plan_from(
    alloc: Global,
    setup: &Setup,
    random: &mut SplitMix64,
    tables: &[Table],
    rounds: u32,
) -> Option<Sums> {
    let mut sums = Sums::new();
    for round in 0..rounds {
        let old = tables.get(round as usize % TABLES)?;
        sums.add_plan(alloc, setup, old, random.next_u64())?;
    }
    Some(sums)
}

// The nodes whose bits are set, node 1 by the lowest one, and the last node where none is.
fn members_of(bits: u64) -> NodeSet {
    let mut members = NodeSet::new();
    let mut left = bits;
    for before in 0..NODES {
        if left % 2 == 1 || (bits == 0 && before + 1 == NODES) {
            members.insert(Node::new(before + 1).unwrap());
        }
        left /= 2;
    }
    members
}

fn random_tables(alloc: Global, setup: &Setup, random: &mut SplitMix64) -> Option<Vec<Table>> {
    let mut tables = Vec::new(alloc);
    for _ in 0..TABLES {
        let table = random_table(alloc, setup, random)?;
        tables.push(table).ok()?;
    }
    Some(tables)
}

// A table with random owners.
fn random_table(alloc: Global, setup: &Setup, random: &mut SplitMix64) -> Option<Table> {
    let mut text = String::new(alloc);
    write_owners(&mut text, random)?;
    Table::read_in(alloc, setup, text.trim_start().as_bytes()).ok()
}

// Random owners, each after a space.
fn write_owners(text: &mut String, random: &mut SplitMix64) -> Option<()> {
    for _ in 0..PARTITIONS {
        let owner = random.next_u64() % u64::from(NODES) + 1;
        write!(text, " {owner}").ok()?;
    }
    Some(())
}
