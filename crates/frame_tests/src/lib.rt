//! Tests of reading frames, by examples.
#![tactic(auto)]

#[cfg(test)]
mod tests;
