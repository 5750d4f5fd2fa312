//! Trees of tables, tried over devices in memory. This library has tests alone: shadow per-process tables follow a
//! guest's own, and are compared with a plain reading of these.
#![tactic(auto)]

#[cfg(test)]
mod costs;
#[cfg(test)]
mod guest;
#[cfg(test)]
mod physical;
#[cfg(test)]
mod plain;
#[cfg(test)]
mod random;
#[cfg(test)]
mod trees;
