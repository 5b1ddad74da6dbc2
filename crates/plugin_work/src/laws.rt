ghost use Rattle.plugin_work.specs.Output.{HaveOneOutput, OutputsConserve};

use acct_types::keys_are_ordered;
use plugin_cache::{one_purge, slices_conserve};

/// A law: slices have one list of purges, and so items one output text.
pub fn outputs_are_one()
    ensures { HaveOneOutput }
{
    one_purge();
}

/// A law: over the rows of all purges each key, and all keys together, have the sums that they have over the items.
pub fn outputs_conserve()
    ensures { OutputsConserve }
{
    keys_are_ordered();
    slices_conserve();
}
