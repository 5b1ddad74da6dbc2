//! Tests of what plugins keep and write: caches, purges, the audit's lines, and a plugin's work.

#![tactic(auto)]

#[cfg(test)]
mod caches;
#[cfg(test)]
mod events;
#[cfg(test)]
mod plugins;
#[cfg(test)]
mod purges;
