//! What is read of configurations. Why one is refused, the cases of `tests/cases/config.txt` show.

use bully_config::{Config, ConfigFault, Fault, FaultKind, Key};
use std::alloc::Global;

/// A configuration of one node, which recovers in the first turn.
const ALONE: &str = "nodes = 1
partitions = 2
events = 100
turns = 6
names = [\"a\"]
[[fault]]
at = 1
node = \"a\"
kind = \"recover\"
";

/// Three nodes with two faults.
const THREE: &str = "nodes = 3
partitions = 4
events = 100
turns = 9
names = [\"a\", \"b\", \"c\"]
[[fault]]
at = 1
node = \"a\"
kind = \"recover\"
[[fault]]
at = 9
node = \"c\"
kind = \"crash\"
";

/// The same with a period.
const PERIOD: &str = "nodes = 3
partitions = 4
events = 100
turns = 9
period = 5
names = [\"a\", \"b\", \"c\"]
[[fault]]
at = 1
node = \"a\"
kind = \"recover\"
[[fault]]
at = 9
node = \"c\"
kind = \"crash\"
";

/// The same with weights, in a group that keeps tasks.
const WEIGHTS: &str = "nodes = 3
partitions = 4
events = 100
turns = 9
weights = [1, 1000, 2]
keep = true
names = [\"a\", \"b\", \"c\"]
[[fault]]
at = 1
node = \"a\"
kind = \"recover\"
[[fault]]
at = 9
node = \"c\"
kind = \"crash\"
";

/// The number of each node, its name, and its weight without weights.
const EVEN: [(u16, &str, u16); 3] = [(1, "a", 1), (2, "b", 1), (3, "c", 1)];

/// The same with weights.
const HEAVY: [(u16, &str, u16); 3] = [(1, "a", 1), (2, "b", 1000), (3, "c", 2)];

/// A configuration, and what is read of it: its numbers, and whether tasks are kept; the nodes, of which the first
/// configuration has one alone; and how many faults there are.
struct Expected {
    text: &'static str,
    nodes: u16,
    partitions: u16,
    events: u32,
    turns: u32,
    period: u32,
    keeps: bool,
    named: &'static [(u16, &'static str, u16)],
    faults: usize,
}

const READ: [Expected; 4] = [
    Expected {
        text: ALONE,
        nodes: 1,
        partitions: 2,
        events: 100,
        turns: 6,
        period: 16,
        keeps: false,
        named: &EVEN,
        faults: 1,
    },
    Expected {
        text: THREE,
        nodes: 3,
        partitions: 4,
        events: 100,
        turns: 9,
        period: 16,
        keeps: false,
        named: &EVEN,
        faults: 2,
    },
    Expected {
        text: PERIOD,
        nodes: 3,
        partitions: 4,
        events: 100,
        turns: 9,
        period: 5,
        keeps: false,
        named: &EVEN,
        faults: 2,
    },
    Expected {
        text: WEIGHTS,
        nodes: 3,
        partitions: 4,
        events: 100,
        turns: 9,
        period: 16,
        keeps: true,
        named: &HEAVY,
        faults: 2,
    },
];

/// The turn of each fault, its node and its kind.
const HAPPENS: [(u32, u16, FaultKind); 2] = [(1, 1, FaultKind::Recover), (9, 3, FaultKind::Crash)];

// Whether these are the numbers of the configuration.
fn has_numbers(config: &Config, expected: &Expected) -> bool {
    let setup = config.setup();
    setup.nodes() == expected.nodes
        && setup.partitions() == expected.partitions
        && setup.events_max() == expected.events
        && config.turns() == expected.turns
        && config.period() == expected.period
}

// Whether the node has this name and weighs so much, or the group hasn't that many nodes and no such name.
fn is_named(config: &Config, number: u16, name: &str, weight: u16) -> bool {
    match config.node(name) {
        Some(node) => {
            node.number() == number
                && node.number() <= config.setup().nodes()
                && config.name(node) == name
                && config.setup().weight(node) == weight
        }
        None => config.setup().nodes() < number,
    }
}

fn are_named(config: &Config, nodes: &[(u16, &str, u16)]) -> bool {
    for (number, name, weight) in nodes {
        if !is_named(config, *number, *name, *weight) {
            return false;
        }
    }
    true
}

// Whether this happens at this place.
fn is_fault(fault: &Fault, index: usize) -> bool {
    match HAPPENS.get(index) {
        Some((at, number, kind)) => {
            fault.at == *at && fault.node.number() == *number && fault.kind == *kind
        }
        None => false,
    }
}

fn are_faults(faults: &[Fault]) -> bool {
    for (index, fault) in faults.iter().enumerate() {
        if !is_fault(fault, index) {
            return false;
        }
    }
    true
}

// Whether this is read of the text, in which no name has a capital letter.
fn is_read(alloc: Global, expected: &Expected) -> bool {
    let Ok(config) = Config::read(alloc, expected.text) else {
        return false;
    };
    has_numbers(&config, expected)
        && config.setup().keeps() == expected.keeps
        && are_named(&config, expected.named)
        && config.node("A").is_none()
        && config.faults().len() == expected.faults
        && are_faults(config.faults())
}

#[test]
fn configurations(rt: HostRuntime) {
    for expected in READ.iter() {
        let text = expected.text;
        assert!(rt; is_read(rt.alloc(), expected), "{text}");
    }
}

/// A fault, its name, and its key's word, which is empty where it tells no key.
const FAULTS: [(ConfigFault, &str, &str); 4] = [
    (ConfigFault::Missing(Key::Nodes), "Missing", "nodes"),
    (ConfigFault::Range(Key::Kind), "Range", "kind"),
    (ConfigFault::DoubleName, "DoubleName", ""),
    (ConfigFault::OutOfMemory, "OutOfMemory", ""),
];

// Whether this is told of the fault.
fn tells(fault: ConfigFault, name: &str, word: &str) -> bool {
    let told = match fault.key() {
        Some(key) => key.word(),
        None => "",
    };
    fault.name() == name && told == word
}

#[test]
fn faults_of_configurations(rt: HostRuntime) {
    for (fault, name, word) in FAULTS.iter() {
        assert!(rt; tells(*fault, *name, *word), "{name}");
    }
}
