//! Sums over the numbers below n, searches through them, and the first failing check of several:
//! definitions that the other crates' promises are written in, and the lemmas on them.

#![tactic(auto)]
