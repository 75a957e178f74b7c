//! Tests of the top call. There is nothing else here.
#![tactic(auto)]

#[cfg(test)]
mod tests;
