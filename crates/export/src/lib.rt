// The store for C and Rust, as failstop.h declares it: thin functions over the proved crates. A
// refusal is a number beside what is given, 0 where nothing is refused; specs/Result.antt says so
// for each result.
//
// Read on in this order: `records`, `replicas`, `votes`, `units`.
#![tactic(auto)]

mod records;
mod replicas;
mod units;
mod votes;
