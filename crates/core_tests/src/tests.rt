//! The tests, a module for each library, and how they compare.

mod apply;
mod asserts;
mod bodies;
mod chain;
mod check;
mod packing;
