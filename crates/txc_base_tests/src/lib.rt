//! Tests of the basic types: examples of the table of operations, which the checker computes, and the printed texts.
#![tactic(auto)]

#[cfg(test)]
mod base;
#[cfg(test)]
mod comparisons;
#[cfg(test)]
mod texts;
