//! The values of attributes that an UPDATE is read from.

ghost use Rattle.std.specs.Prelude.{◌≡◌, ◌≤◌, [], length, option_copied, if◌then◌else◌, Some, None};
ghost use Rattle.std.specs.Option.{option_or};
ghost use Rattle.bgp_msg.specs.Values.{Adds, Keeps};

use crate::attributes::{
    AS_PATH, AS4_PATH, COMMUNITIES, LOCAL_PREF, MP_REACH_NLRI, MP_UNREACH_NLRI, MULTI_EXIT_DISC,
    NEXT_HOP, ORIGIN, type_of, value_of,
};

/// The value of each of these attributes, where it is there.
#[derive(Clone, Copy)]
pub(crate) struct Values<'a> {
    pub(crate) origin: Option<&'a [u8]>,
    pub(crate) as_path: Option<&'a [u8]>,
    pub(crate) next_hop: Option<&'a [u8]>,
    pub(crate) med: Option<&'a [u8]>,
    pub(crate) local_pref: Option<&'a [u8]>,
    pub(crate) communities: Option<&'a [u8]>,
    pub(crate) mp_reach: Option<&'a [u8]>,
    pub(crate) mp_unreach: Option<&'a [u8]>,
    pub(crate) as4_path: Option<&'a [u8]>,
}

// The value that came before, or else this one.
fn or_value<'a>(before: Option<&'a [u8]>, value: &'a [u8]) -> Option<&'a [u8]>
    ensures { option_copied result ≡ option_or (option_copied before.entry) (Some value.entry.now) }
{
    match before {
        Some(_) => before,
        None => Some(value),
    }
}

impl<'a> Values<'a> {
    pub(crate) fn none() -> Values<'a>
        ensures { Keeps result [] }
    {
        Values {
            origin: None,
            as_path: None,
            next_hop: None,
            med: None,
            local_pref: None,
            communities: None,
            mp_reach: None,
            mp_unreach: None,
            as4_path: None,
        }
    }

    /// Keeps the value of an attribute behind those that came before.
    pub(crate) fn keep(&mut self, attribute: &'a [u8])
        requires { 1 ≤ length attribute.now }
        ensures { Adds self.old attribute.now self.new }
    {
        let value = value_of(attribute);
        match type_of(attribute) {
            ORIGIN => self.origin = or_value(self.origin, value),
            AS_PATH => self.as_path = or_value(self.as_path, value),
            NEXT_HOP => self.next_hop = or_value(self.next_hop, value),
            MULTI_EXIT_DISC => self.med = or_value(self.med, value),
            LOCAL_PREF => self.local_pref = or_value(self.local_pref, value),
            COMMUNITIES => self.communities = or_value(self.communities, value),
            MP_REACH_NLRI => self.mp_reach = or_value(self.mp_reach, value),
            MP_UNREACH_NLRI => self.mp_unreach = or_value(self.mp_unreach, value),
            AS4_PATH => self.as4_path = or_value(self.as4_path, value),
            _ => {}
        }
    }
}
