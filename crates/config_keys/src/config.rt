//! What a configuration says.

ghost use Rattle.std.specs.Prelude.{◌≡◌, ◌≤◌, true, map, length};
ghost use Rattle.config_keys.specs.Ranges.{IsHold, IsWithin};
ghost use Rattle.config_keys.specs.Values.{are_apart, is_identifier};

use crate::{PluginConfig, Tool};
use acct_types::{Addr, AsFrom, List, Text};

/// What a configuration says: a field for each key of the whole program, with the key's name, and the plugins in the
/// order of the key `plugins`. Ports, the lag in milliseconds, the hold time in seconds and the number of datagrams or
/// route events after which a live run stops are in the ranges of the keys.
#[derive(Drop)]
pub struct Config {
    pub tool: Tool,
    pub plugins: List<PluginConfig>,
    pub nfacctd_port: u64,
    pub sfacctd_port: u64,
    pub nfacctd_renormalize: bool,
    pub sfacctd_renormalize: bool,
    pub nfacctd_as: AsFrom,
    pub sfacctd_as: AsFrom,
    pub pre_tag_map: Option<Text>,
    pub bgp_agent_map: Option<Text>,
    pub sampling_map: Option<Text>,
    pub bgp_daemon: bool,
    pub bmp_daemon: bool,
    pub bgp_daemon_port: u64,
    pub bmp_daemon_port: u64,
    pub acct_flow_capture: Option<Text>,
    pub acct_route_capture: Option<Text>,
    pub acct_audit_file: Text,
    pub acct_dump_file: Text,
    pub acct_threads: bool,
    pub acct_replay_lag: u64,
    pub acct_bgp_hold: u64,
    pub acct_bgp_id: Addr,
    pub acct_stop_after: u64,
    pub ghost few_plugins: { length plugins ≤ 8 },
    pub ghost names_differ: { are_apart (map (λ plugin. plugin.name) plugins) ≡ true },
    pub ghost nfacctd_port_within: { IsWithin 1 65535 nfacctd_port },
    pub ghost sfacctd_port_within: { IsWithin 1 65535 sfacctd_port },
    pub ghost bgp_daemon_port_within: { IsWithin 1 65535 bgp_daemon_port },
    pub ghost bmp_daemon_port_within: { IsWithin 1 65535 bmp_daemon_port },
    pub ghost acct_replay_lag_within: { acct_replay_lag ≤ 4294967295 },
    pub ghost acct_bgp_hold_within: { IsHold acct_bgp_hold },
    pub ghost acct_bgp_id_within: { is_identifier acct_bgp_id ≡ true },
    pub ghost acct_stop_after_within: { IsWithin 1 4294967295 acct_stop_after },
}
