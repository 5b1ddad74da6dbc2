//! The keys of the three kinds of map, of which each has one row: its name, and the values it takes.

ghost use Rattle.std.specs.Prelude.{◌≡◌, map, option_map};
ghost use Rattle.std.specs.Str.{bytes_eq};
ghost use Rattle.pretag_map.specs.Keys.{agent_keys, row_of, row_view, sampling_keys, tag_keys};

use config_keys::Range;

/// The values that a key takes.
#[derive(Clone, Copy)]
pub enum Kind {
    Number(Range),
    /// An address, or an address, a slash and how many of its bits count.
    Network,
    Address,
    Label,
}

#[derive(Clone, Copy)]
pub struct Row {
    pub name: &'static [u8],
    pub kind: Kind,
}

pub const ANY_NUMBER: Range = Range {
    zero: false,
    least: 0,
    most: 18446744073709551615,
};

pub const RATE: Range = Range {
    zero: false,
    least: 1,
    most: 4294967295,
};

static TAG_KEYS: [Row; 11] = [
    Row {
        name: b"ip",
        kind: Kind::Network,
    },
    Row {
        name: b"in",
        kind: Kind::Number(ANY_NUMBER),
    },
    Row {
        name: b"out",
        kind: Kind::Number(ANY_NUMBER),
    },
    Row {
        name: b"source_id",
        kind: Kind::Number(ANY_NUMBER),
    },
    Row {
        name: b"src_as",
        kind: Kind::Number(ANY_NUMBER),
    },
    Row {
        name: b"dst_as",
        kind: Kind::Number(ANY_NUMBER),
    },
    Row {
        name: b"src_net",
        kind: Kind::Network,
    },
    Row {
        name: b"dst_net",
        kind: Kind::Network,
    },
    Row {
        name: b"set_tag",
        kind: Kind::Number(ANY_NUMBER),
    },
    Row {
        name: b"set_tag2",
        kind: Kind::Number(ANY_NUMBER),
    },
    Row {
        name: b"set_label",
        kind: Kind::Label,
    },
];

static AGENT_KEYS: [Row; 3] = [
    Row {
        name: b"ip",
        kind: Kind::Network,
    },
    Row {
        name: b"bgp_ip",
        kind: Kind::Address,
    },
    Row {
        name: b"acct_peer",
        kind: Kind::Address,
    },
];

static SAMPLING_KEYS: [Row; 4] = [
    Row {
        name: b"ip",
        kind: Kind::Network,
    },
    Row {
        name: b"sampling_rate",
        kind: Kind::Number(RATE),
    },
    Row {
        name: b"in",
        kind: Kind::Number(ANY_NUMBER),
    },
    Row {
        name: b"out",
        kind: Kind::Number(ANY_NUMBER),
    },
];

/// The keys of a map of tags.
#[tactic(auto, unfolding(crate::specs::Keys::tag_keys))]
pub fn tag_keys() -> &'static [Row]
    ensures { map row_view result.now ≡ tag_keys }
{
    &TAG_KEYS
}

/// The keys of a map of agents.
#[tactic(auto, unfolding(crate::specs::Keys::agent_keys))]
pub fn agent_keys() -> &'static [Row]
    ensures { map row_view result.now ≡ agent_keys }
{
    &AGENT_KEYS
}

/// The keys of a map of sampling rates.
#[tactic(auto, unfolding(crate::specs::Keys::sampling_keys))]
pub fn sampling_keys() -> &'static [Row]
    ensures { map row_view result.now ≡ sampling_keys }
{
    &SAMPLING_KEYS
}

/// Whether it is that word.
pub fn is_word(text: &[u8], word: &[u8]) -> bool
    ensures { result ≡ bytes_eq text.now word.now }
{
    text == word
}

/// The row of a key, where the map has it.
pub fn find_row(rows: &[Row], name: &[u8]) -> Option<Row>
    ensures { option_map row_view result ≡ row_of (map row_view rows.now) name.now }
{
    for row in rows {
        if is_word(row.name, name) {
            return Some(*row);
        }
    }
    None
}
