//! What contracts see of an engine.
use dk_si::machine::Machine;

/// The last iteration, and the machine's state between two calls.
#[derive(Debug, Drop)]
pub struct EngineState {
    pub iteration: u64,
    pub machine: Machine,
}
