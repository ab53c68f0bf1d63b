use super::network::{Breach, Network};
use super::random::Random;
use bully_base::{EVENTS_MAX, Setup};
use bully_rows::{ROWS_MAX, Row, Rows, Trace, write_trace};
use std::alloc::Global;
use std::io::Write;

/// A network to simulate: the number of nodes, a seed, the number of steps, and the premise that is broken.
#[derive(Clone, Copy)]
pub struct Simulation {
    pub nodes: u16,
    pub seed: u64,
    pub steps: u32,
    pub breach: Breach,
}

/// Writes the trace of a network.
pub fn tell_trace<W: Write>(alloc: Global, output: &mut W, simulation: &Simulation) -> Option<()> {
    let setup = setup_of(simulation)?;
    let network = network_of(alloc, &setup, simulation)?;
    let trace = trace_of(setup, network.into_rows())?;
    match write_trace(alloc, output, &trace) {
        Ok(()) => Some(()),
        Err(_) => None,
    }
}

/// Tells how many requests ran in a network.
pub fn tell_requests<R: Print>(rt: &R, alloc: Global, simulation: &Simulation) -> Option<()> {
    let setup = setup_of(simulation)?;
    let requests = network_of(alloc, &setup, simulation)?.requests();
    println!(rt; "requests {requests}").ok()
}

// The weights that nodes may have.
const WEIGHTS: [u16; 4] = [1, 2, 3, 7];

// What the network is set up with. With an even seed tasks are kept over a crash. Two seeds of four have as many
// partitions as nodes, and nodes of weight 1; the others up to three times as many, and nodes of several weights.
fn setup_of(simulation: &Simulation) -> Option<Setup> {
    let nodes = usize::from(simulation.nodes);
    let mut weights = [1; 16];
    let own = weights.get_mut(..nodes)?;
    let partitions = if matches!(simulation.seed % 4, 1 | 2) {
        simulation.nodes
    } else {
        let mut random = Random(simulation.seed);
        weigh(own, &mut random)?;
        u16::try_from(1 + random.below(3 * nodes)?).ok()?
    };
    Setup::weighted(
        simulation.nodes,
        partitions,
        EVENTS_MAX,
        own,
        simulation.seed % 2 == 0,
    )
    .ok()
}

// Each node gets one of the weights.
fn weigh(own: &mut [u16], random: &mut Random) -> Option<()> {
    for weight in own {
        *weight = *WEIGHTS.get(random.below(WEIGHTS.len())?)?;
    }
    Some(())
}

// The network after its steps, with each node's vector at the end of its log.
fn network_of(alloc: Global, setup: &Setup, simulation: &Simulation) -> Option<Network> {
    let mut network = Network::new(alloc, setup, simulation.seed, simulation.breach)?;
    network.run(simulation.steps)?;
    Some(network)
}

// The trace with these rows; none if they are too many.
fn trace_of(setup: Setup, rows: Vec<Row>) -> Option<Trace> {
    if rows.len() <= ROWS_MAX as usize {
        Some(Trace::new(setup, Rows::from_vec(rows)))
    } else {
        None
    }
}
