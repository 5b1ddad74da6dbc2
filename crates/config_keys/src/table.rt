//! The keys of the configuration, of which each has one row: its name, where it may stand, and the values it takes.

ghost use Rattle.std.specs.Prelude.{◌≡◌, map, option_map};
ghost use Rattle.config_keys.specs.Table.{row_of, row_view, table};

/// Where a key may stand.
#[derive(Clone, Copy)]
pub enum Scope {
    /// Without a name.
    Global,
    /// For one plugin, with its name, or for all, without one.
    Plugin,
    /// With any name or none; its value means nothing here.
    PassedOver,
}

/// Values that are one of a few words.
#[derive(Clone, Copy)]
pub enum Choice {
    Truth,
    Append,
    Layout,
    NetflowAs,
    SflowAs,
}

/// The numbers from `least` to `most`, and 0 where `zero` says so.
#[derive(Clone, Copy)]
pub struct Range {
    pub zero: bool,
    pub least: u64,
    pub most: u64,
}

/// The values that a key takes.
#[derive(Clone, Copy)]
pub enum Kind {
    Plugins,
    Primitives,
    Choice(Choice),
    FileName,
    Number(Range),
    /// An IPv4 address that isn't 0.0.0.0.
    Identifier,
    Anything,
}

#[derive(Clone, Copy)]
pub struct Row {
    pub name: &'static [u8],
    pub scope: Scope,
    pub kind: Kind,
}

pub const PORT: Range = Range {
    zero: false,
    least: 1,
    most: 65535,
};

pub const REFRESH: Range = Range {
    zero: false,
    least: 1,
    most: 86400,
};

pub const ENTRIES: Range = Range {
    zero: false,
    least: 1,
    most: 65536,
};

pub const LAG: Range = Range {
    zero: false,
    least: 0,
    most: 4294967295,
};

pub const HOLD: Range = Range {
    zero: true,
    least: 3,
    most: 65535,
};

pub const STOP: Range = Range {
    zero: false,
    least: 1,
    most: 4294967295,
};

static ROWS: [Row; 48] = [
    Row {
        name: b"plugins",
        scope: Scope::Global,
        kind: Kind::Plugins,
    },
    Row {
        name: b"aggregate",
        scope: Scope::Plugin,
        kind: Kind::Primitives,
    },
    Row {
        name: b"print_output",
        scope: Scope::Plugin,
        kind: Kind::Choice(Choice::Layout),
    },
    Row {
        name: b"print_output_file",
        scope: Scope::Plugin,
        kind: Kind::FileName,
    },
    Row {
        name: b"print_output_file_append",
        scope: Scope::Plugin,
        kind: Kind::Choice(Choice::Append),
    },
    Row {
        name: b"print_refresh_time",
        scope: Scope::Plugin,
        kind: Kind::Number(REFRESH),
    },
    Row {
        name: b"acct_memory_file",
        scope: Scope::Plugin,
        kind: Kind::FileName,
    },
    Row {
        name: b"acct_cache_entries",
        scope: Scope::Plugin,
        kind: Kind::Number(ENTRIES),
    },
    Row {
        name: b"acct_ring_records",
        scope: Scope::Plugin,
        kind: Kind::Number(ENTRIES),
    },
    Row {
        name: b"acct_ring_wait",
        scope: Scope::Plugin,
        kind: Kind::Choice(Choice::Truth),
    },
    Row {
        name: b"nfacctd_port",
        scope: Scope::Global,
        kind: Kind::Number(PORT),
    },
    Row {
        name: b"sfacctd_port",
        scope: Scope::Global,
        kind: Kind::Number(PORT),
    },
    Row {
        name: b"nfacctd_renormalize",
        scope: Scope::Global,
        kind: Kind::Choice(Choice::Truth),
    },
    Row {
        name: b"sfacctd_renormalize",
        scope: Scope::Global,
        kind: Kind::Choice(Choice::Truth),
    },
    Row {
        name: b"nfacctd_as",
        scope: Scope::Global,
        kind: Kind::Choice(Choice::NetflowAs),
    },
    Row {
        name: b"sfacctd_as",
        scope: Scope::Global,
        kind: Kind::Choice(Choice::SflowAs),
    },
    Row {
        name: b"pre_tag_map",
        scope: Scope::Global,
        kind: Kind::FileName,
    },
    Row {
        name: b"bgp_agent_map",
        scope: Scope::Global,
        kind: Kind::FileName,
    },
    Row {
        name: b"sampling_map",
        scope: Scope::Global,
        kind: Kind::FileName,
    },
    Row {
        name: b"bgp_daemon",
        scope: Scope::Global,
        kind: Kind::Choice(Choice::Truth),
    },
    Row {
        name: b"bmp_daemon",
        scope: Scope::Global,
        kind: Kind::Choice(Choice::Truth),
    },
    Row {
        name: b"bgp_daemon_port",
        scope: Scope::Global,
        kind: Kind::Number(PORT),
    },
    Row {
        name: b"bmp_daemon_port",
        scope: Scope::Global,
        kind: Kind::Number(PORT),
    },
    Row {
        name: b"acct_flow_capture",
        scope: Scope::Global,
        kind: Kind::FileName,
    },
    Row {
        name: b"acct_route_capture",
        scope: Scope::Global,
        kind: Kind::FileName,
    },
    Row {
        name: b"acct_audit_file",
        scope: Scope::Global,
        kind: Kind::FileName,
    },
    Row {
        name: b"acct_dump_file",
        scope: Scope::Global,
        kind: Kind::FileName,
    },
    Row {
        name: b"acct_threads",
        scope: Scope::Global,
        kind: Kind::Choice(Choice::Truth),
    },
    Row {
        name: b"acct_replay_lag",
        scope: Scope::Global,
        kind: Kind::Number(LAG),
    },
    Row {
        name: b"acct_bgp_hold",
        scope: Scope::Global,
        kind: Kind::Number(HOLD),
    },
    Row {
        name: b"acct_bgp_id",
        scope: Scope::Global,
        kind: Kind::Identifier,
    },
    Row {
        name: b"acct_stop_after",
        scope: Scope::Global,
        kind: Kind::Number(STOP),
    },
    Row {
        name: b"daemonize",
        scope: Scope::PassedOver,
        kind: Kind::Anything,
    },
    Row {
        name: b"debug",
        scope: Scope::PassedOver,
        kind: Kind::Anything,
    },
    Row {
        name: b"logfile",
        scope: Scope::PassedOver,
        kind: Kind::Anything,
    },
    Row {
        name: b"pidfile",
        scope: Scope::PassedOver,
        kind: Kind::Anything,
    },
    Row {
        name: b"syslog",
        scope: Scope::PassedOver,
        kind: Kind::Anything,
    },
    Row {
        name: b"imt_path",
        scope: Scope::PassedOver,
        kind: Kind::Anything,
    },
    Row {
        name: b"plugin_buffer_size",
        scope: Scope::PassedOver,
        kind: Kind::Anything,
    },
    Row {
        name: b"plugin_pipe_size",
        scope: Scope::PassedOver,
        kind: Kind::Anything,
    },
    Row {
        name: b"nfacctd_ip",
        scope: Scope::PassedOver,
        kind: Kind::Anything,
    },
    Row {
        name: b"sfacctd_ip",
        scope: Scope::PassedOver,
        kind: Kind::Anything,
    },
    Row {
        name: b"bgp_daemon_ip",
        scope: Scope::PassedOver,
        kind: Kind::Anything,
    },
    Row {
        name: b"bmp_daemon_ip",
        scope: Scope::PassedOver,
        kind: Kind::Anything,
    },
    Row {
        name: b"bgp_daemon_max_peers",
        scope: Scope::PassedOver,
        kind: Kind::Anything,
    },
    Row {
        name: b"core_proc_name",
        scope: Scope::PassedOver,
        kind: Kind::Anything,
    },
    Row {
        name: b"files_umask",
        scope: Scope::PassedOver,
        kind: Kind::Anything,
    },
    Row {
        name: b"nfacctd_pipe_size",
        scope: Scope::PassedOver,
        kind: Kind::Anything,
    },
];

fn rows() -> &'static [Row]
    ensures { map row_view result.now ≡ table }
{
    &ROWS
}

/// The row of a key, or None where it is unknown.
pub fn find_row(key: &[u8]) -> Option<Row>
    ensures { option_map row_view result ≡ row_of key.now }
{
    for row in rows() {
        if row.name == key {
            return Some(*row);
        }
    }
    None
}
