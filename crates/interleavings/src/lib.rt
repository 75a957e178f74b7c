//! In which orders the calls of a program may take effect, and what a machine of lanes makes of it.
//!
//! The definitions stand in `specs/`, above those of `execution_definitions`, whose steps they share,
//! and below every runtime and every judge of an execution, which cite them. There is nothing to run.
#![tactic(auto)]
