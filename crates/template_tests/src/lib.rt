//! Tests of templates, of what is kept of them, and of flow sets.

#![tactic(auto)]

#[cfg(test)]
mod sets;
#[cfg(test)]
mod templates;
