//! What stands round the calls of workers.
#![tactic(auto)]

/// Stands round each call of a desk that a worker makes. Workers and their calls are counted from 0.
pub trait Gate: Sync {
    /// Before the call.
    fn before(&self, worker: u32, call: u32);

    /// Once the call was answered.
    fn after(&self, worker: u32, call: u32);
}
