//! Tests of the judges of orders, on a small program.
#![tactic(auto)]

#[cfg(test)]
mod tests;
