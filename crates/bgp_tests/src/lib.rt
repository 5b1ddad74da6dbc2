//! Tests of BGP: its messages, OPEN and UPDATE, sessions, and what happens to many of them.

#![tactic(auto)]

#[cfg(test)]
mod bird;
#[cfg(test)]
mod feeds;
#[cfg(test)]
mod messages;
#[cfg(test)]
mod opens;
#[cfg(test)]
mod sessions;
#[cfg(test)]
mod updates;
