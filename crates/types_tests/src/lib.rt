//! Tests of the shared types.

#![tactic(auto)]

#[cfg(test)]
mod types;
