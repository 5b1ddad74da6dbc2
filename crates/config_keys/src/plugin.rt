//! What a configuration says of one plugin.

ghost use Rattle.std.specs.Prelude.{◌≡◌, ◌≤◌, true};
ghost use Rattle.config_keys.specs.Lines.{is_name};
ghost use Rattle.config_keys.specs.Ranges.{IsWithin};

use crate::value::PluginKind;
use acct_types::{Layout, Primitives, Text};

/// What a configuration says of one plugin.
#[derive(Drop)]
pub struct PluginConfig {
    /// 1 to 32 letters, digits, `_` or `-`.
    pub name: Text,
    pub kind: PluginKind,
    pub primitives: Primitives,
    pub layout: Layout,
    /// The output's name: of a print plugin's file, or of a memory plugin's.
    pub file: Text,
    /// The length of a window in seconds.
    pub refresh: u32,
    /// How many records the ring holds.
    pub ring: u32,
    /// Whether a full ring is waited for.
    pub wait: bool,
    /// How many keys the cache holds.
    pub cache: u32,
    pub ghost is_named: { is_name name ≡ true },
    pub ghost refresh_within: { IsWithin 1 86400 refresh },
    pub ghost ring_within: { IsWithin 1 65536 ring },
    pub ghost cache_within: { IsWithin 1 65536 cache },
}
