//! Tests of whole runs in memory, and of the programs' words.

#![tactic(auto)]

#[cfg(test)]
mod captures;
#[cfg(test)]
mod faults;
#[cfg(test)]
mod maps;
#[cfg(test)]
mod programs;
#[cfg(test)]
mod protocols;
#[cfg(test)]
mod several;
#[cfg(test)]
mod test_runs;
