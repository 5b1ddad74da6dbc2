//! Tests of what stands outside, with real files, and of capture files.

#![tactic(auto)]

#[cfg(test)]
mod captures;
#[cfg(test)]
mod edge;
