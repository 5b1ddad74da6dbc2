ghost use Rattle.std.specs.Prelude.{◌≤◌};

use acct_types::List;

/// What the source or sink of a name is made with.
#[derive(Debug, Drop)]
pub struct Shape {
    pub most: u64,
    pub failing: List<u64>,
    ghost moves: { 1 ≤ most },
}
