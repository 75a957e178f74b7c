//! Tests of the programs of `examples`, with each runtime. There is nothing else here.
#![tactic(auto)]

#[cfg(test)]
mod accounts;
#[cfg(test)]
mod bases;
#[cfg(test)]
mod grid;
