//! Tables of routes: what stands of each source after a list of messages, and the longest prefix that covers an address.
#![tactic(auto)]

pub mod laws;
mod lines;
mod longest;
mod name;
mod route;
mod routes;
mod table;

pub use table::Table;
