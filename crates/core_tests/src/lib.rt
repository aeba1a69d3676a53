//! Tests of public calls that no program makes, of the libraries that a desk is made of. What a
//! program shows is tested by the cases of `tests/`, and what a contract says exactly is no test.
//!
//! They are in a crate of their own since a crate with tests is proved twice, and those libraries
//! have the larger proofs. A case is a line of a table: what goes in, and what has to come out, as
//! it is known from outside.
#![tactic(auto)]

#[cfg(test)]
mod tests;
