//! Laws of configurations.

ghost use Rattle.config_keys.specs.Judging.{FitTheirKeys};

/// A law: each value of a configuration whose lines have no cause is one that its key takes.
pub fn values_fit_their_keys()
    ensures { FitTheirKeys }
{}
