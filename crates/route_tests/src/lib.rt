//! Tests of routes: tables of them.

#![tactic(auto)]

#[cfg(test)]
mod tables;
