//! Conditions of rules, of which one that isn't given holds.

ghost use Rattle.std.specs.Prelude.{◌≡◌, option_map};
ghost use Rattle.pretag_map.specs.Conditions.{covers_if, equals_if};
ghost use Rattle.pretag_map.specs.Views.{network_view};

use acct_types::{Addr, Prefix};

pub fn covers_if(network: &Option<Prefix>, address: &Addr) -> bool
    ensures { result ≡ covers_if (option_map network_view network.now) address.now }
{
    match network {
        None => true,
        Some(network) => network.covers(address),
    }
}

pub fn equals_if(wanted: Option<u64>, number: u64) -> bool
    ensures { result ≡ equals_if wanted number }
{
    match wanted {
        None => true,
        Some(wanted) => wanted == number,
    }
}
