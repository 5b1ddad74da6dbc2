//! Tests of the core that takes datagrams one by one.

#![tactic(auto)]

#[cfg(test)]
mod cores;
