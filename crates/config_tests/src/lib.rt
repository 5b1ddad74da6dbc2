//! Tests of configurations, command lines and maps, and of the keys that they ask for.

#![tactic(auto)]

#[cfg(test)]
mod configurations;
#[cfg(test)]
mod keys;
#[cfg(test)]
mod maps;
