//! Tests that cross the crates of the disk, over a host in memory: records that are opened, stores that are
//! made, leaves and inner nodes that are read, and forests that close leaves.
#![tactic(auto)]

#[cfg(test)]
mod disk;
#[cfg(test)]
mod forests;
#[cfg(test)]
mod leaves;
#[cfg(test)]
mod nodes;
#[cfg(test)]
mod records;
#[cfg(test)]
mod stores;
#[cfg(test)]
mod views;
