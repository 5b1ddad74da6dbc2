//! Laws of the courses that runs may take, and of loads.

ghost use Rattle.collect_core.specs.Lawful.{DropsConserve, UnroutedIsLawful};
ghost use Rattle.collect_core.specs.Loads.{LoadsAreEntries, LoadsAreNumbered};

use acct_types::counts_add_up;

/// A law: a run without routes on one thread takes a lawful course, on which nothing is dropped.
#[tactic(auto, using(crate::proofs::CourseLemmas::unrouted_is_lawful))]
pub fn runs_without_routes_are_lawful()
    ensures { UnroutedIsLawful }
{}

/// A law: for each key, the rows of what a plugin took and the entries that its ring refused add up to what it is owed.
pub fn drops_conserve()
    ensures { DropsConserve }
{
    counts_add_up();
}

/// A law: the loads with a plugin's number are its entries, in their order.
#[tactic(auto, using(crate::proofs::LoadLemmas::loads_are_entries))]
pub fn loads_are_entries()
    ensures { LoadsAreEntries }
{}

/// A law: each load has the number of a plugin.
#[tactic(auto, using(crate::proofs::LoadLemmas::loads_are_numbered))]
pub fn loads_are_numbered()
    ensures { LoadsAreNumbered }
{}
