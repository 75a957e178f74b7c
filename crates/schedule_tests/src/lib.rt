//! Tests of the machine of lanes and of replays. There is nothing else here.
#![tactic(auto)]

#[cfg(test)]
mod tests;
