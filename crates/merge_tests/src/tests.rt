// What no clause says: that memory is found. The cases are worked out by hand.
mod faults;
mod merges;
mod permutations;
mod program;
