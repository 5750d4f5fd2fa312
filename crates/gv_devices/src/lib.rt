//! Two devices for tests, each over one in memory: one counts the words that are read of it, and one
//! fails the calls that it is told to fail.
#![tactic(auto)]

mod counting;
mod failing;
mod laws;

pub use counting::CountingGpu;
pub use failing::FailingGpu;
pub use laws::counting_devices_never_fault;

#[cfg(test)]
mod tests;
