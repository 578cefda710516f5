//! Tests that cross crates, over a host in memory: streams and sessions told to the top call, gates opened, runs
//! stopped, and volumes reused.
#![tactic(auto)]

#[cfg(test)]
mod gates;
#[cfg(test)]
mod leaves;
#[cfg(test)]
mod reuse;
#[cfg(test)]
mod sessions;
#[cfg(test)]
mod stops;
#[cfg(test)]
mod tests;
