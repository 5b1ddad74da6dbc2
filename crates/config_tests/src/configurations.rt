use acct_types::{Addr, AsFrom, Column, Layout, Primitives, Text};
use config_keys::{
    Config, ConfigCause, ConfigFault, PluginConfig, PluginKind, Tool, UsageFault, Words,
    has_output, read_config, read_words,
};
use fixtures::joined;
use std::alloc::{AllocError, Global};
use std::test::Fail;

/// What nfacctd is given where a row says no more.
const BASE: &[u8] =
    b"plugins: print[p]\nprint_output_file[p]: p.csv\nprint_output_file_append: true\nacct_flow_capture: flows.cap\n";

/// A text of a tool, the line of its fault, and the cause.
type Fault = (Tool, &'static [u8], u32, ConfigCause);

/// The same of nfacctd, for a text behind the base.
type FaultBehind = (&'static [u8], u32, ConfigCause);

/// A configuration that is read: a base and what is behind it, and what it then has.
#[derive(Clone, Copy)]
struct Taken {
    tool: Tool,
    base: &'static [u8],
    text: &'static [u8],
    kind: PluginKind,
    plugin: &'static [u8],
    file: &'static [u8],
    flows: bool,
    refresh: u32,
    cache: u32,
    ring: u32,
    port: u64,
    lag: u64,
    hold: u64,
    id: Addr,
    pre_tag_map: &'static [u8],
    agent_map: &'static [u8],
    flow_capture: &'static [u8],
    route_capture: &'static [u8],
    audit: &'static [u8],
    dump: &'static [u8],
    from: (AsFrom, AsFrom),
}

const TAKEN: Taken = Taken {
    tool: Tool::Nfacctd,
    base: BASE,
    text: b"",
    kind: PluginKind::Print,
    plugin: b"p",
    file: b"p.csv",
    flows: false,
    refresh: 60,
    cache: 16384,
    ring: 4096,
    port: 2100,
    lag: 0,
    hold: 180,
    id: Addr::V4(0x7f00_0001),
    pre_tag_map: b"",
    agent_map: b"",
    flow_capture: b"flows.cap",
    route_capture: b"",
    audit: b"audit.txt",
    dump: b"dump.txt",
    from: (AsFrom::Export, AsFrom::Export),
};

static FAULTS: [Fault; 29] = [
    (
        Tool::Sfacctd,
        b"plugins: print[p]\nprint_output_file[p]: p.csv\nprint_output_file_append: true\nacct_flow_capture: flows.cap\nsfacctd_as: bgp\n",
        0,
        ConfigCause::MissingKey,
    ),
    (
        Tool::Nfacctd,
        b"plugins: print[p]\nprint_output_file[p]: p.csv\nprint_output_file_append: true\nacct_route_capture: r\n",
        0,
        ConfigCause::MissingKey,
    ),
    (Tool::Nfacctd, b"", 0, ConfigCause::MissingKey),
    (
        Tool::Sfacctd,
        b"plugins: print\nprint_output_file: f\n",
        0,
        ConfigCause::MissingKey,
    ),
    (
        Tool::Nfacctd,
        b"plugins: print[p], print[q]\nprint_output_file_append[p]: true\nprint_output_file[p]: p\nprint_output_file[q]: q\n",
        0,
        ConfigCause::MissingKey,
    ),
    (
        Tool::Nfacctd,
        b"plugins: memory[m]\n",
        0,
        ConfigCause::MissingKey,
    ),
    (
        Tool::Nfacctd,
        b"print_output_file[q]: f\nplugins: print[p]\n",
        1,
        ConfigCause::UnknownPlugin,
    ),
    (
        Tool::Nfacctd,
        b"print_output_file[q]: f\nplugins: print[p], kafka\n",
        2,
        ConfigCause::NotInProfile,
    ),
    (
        Tool::Nfacctd,
        b"print_output_file[q]: f\nplugins[x]: print[p]\nplugins: print[p]\n",
        2,
        ConfigCause::NotInProfile,
    ),
    (
        Tool::Nfacctd,
        b"print_output_file[q]: f\nplugins: print[p]\x80\nplugins: print[p]\n",
        2,
        ConfigCause::NotText,
    ),
    (
        Tool::Nfacctd,
        b"print_output_file[q]: f\nplugins[]: print[p]\nplugins: print[p]\n",
        1,
        ConfigCause::UnknownPlugin,
    ),
    (
        Tool::Nfacctd,
        b"plugins: foo, kafka\n",
        1,
        ConfigCause::NotInProfile,
    ),
    (
        Tool::Nfacctd,
        b"plugins: kafka[k]\n",
        1,
        ConfigCause::NotInProfile,
    ),
    (
        Tool::Nfacctd,
        b"plugins: kafka[a b]\n",
        1,
        ConfigCause::BadValue,
    ),
    (
        Tool::Nfacctd,
        b"plugins: print[p],\n",
        1,
        ConfigCause::BadValue,
    ),
    (Tool::Nfacctd, b"plugins:\n", 1, ConfigCause::BadValue),
    (
        Tool::Nfacctd,
        b"plugins: print[p], memory[p]\n",
        1,
        ConfigCause::BadValue,
    ),
    (
        Tool::Nfacctd,
        b"plugins: print, print[print]\n",
        1,
        ConfigCause::BadValue,
    ),
    (
        Tool::Nfacctd,
        b"plugins: print[a], print[b], print[c], print[d], print[e], print[f], print[g], print[h], print[i]\n",
        1,
        ConfigCause::TooManyPlugins,
    ),
    (
        Tool::Nfacctd,
        b"plugins: print[a], print[b], print[c], print[d], print[e], print[f], print[g], print[h], print[a]\n",
        1,
        ConfigCause::BadValue,
    ),
    (
        Tool::Nfacctd,
        b"plugins: print[a], print[b], print[c], print[d], print[e], print[f], print[g], print[h]\n",
        0,
        ConfigCause::MissingKey,
    ),
    (
        Tool::Nfacctd,
        b"plugins: print[a], print[b], print[c], print[d], print[e], print[f], print[g], print[h], kafka\n",
        1,
        ConfigCause::NotInProfile,
    ),
    (
        Tool::Pmbgpd,
        b"nfacctd_port: bad\n",
        1,
        ConfigCause::BadValue,
    ),
    (
        Tool::Pmbgpd,
        b"nfacctd_port: bad\nwhat\n",
        1,
        ConfigCause::BadValue,
    ),
    (
        Tool::Pmbgpd,
        b"debug: 1\nnfacctd_port: bad\n\x80\n",
        2,
        ConfigCause::BadValue,
    ),
    (
        Tool::Nfacctd,
        b"plugins: print[p], print[q]\nprint_output_file_append: true\nprint_output_file: f\n",
        0,
        ConfigCause::SameName,
    ),
    (
        Tool::Nfacctd,
        b"plugins: memory[m]\nacct_memory_file: audit.txt\n",
        0,
        ConfigCause::SameName,
    ),
    (
        Tool::Pmbgpd,
        b"acct_route_capture: dump.txt\n",
        0,
        ConfigCause::SameName,
    ),
    (
        Tool::Pmbgpd,
        b"acct_route_capture: r\nacct_dump_file: r\n",
        0,
        ConfigCause::SameName,
    ),
];

static FAULTS_BEHIND: [FaultBehind; 63] = [
    (b"debug", 5, ConfigCause::NoColon),
    (b"debug: true\r", 5, ConfigCause::NotText),
    (b"debug: true\r\r\n", 5, ConfigCause::NotText),
    (b"debug: \x7f\n", 5, ConfigCause::NotText),
    (b"debug: \x1f\n", 5, ConfigCause::NotText),
    (b"\x80\n", 5, ConfigCause::NotText),
    (b"no colon\n", 5, ConfigCause::NoColon),
    (b": value\n", 5, ConfigCause::UnknownKey),
    (b"what: 1\n", 5, ConfigCause::UnknownKey),
    (b"debug[]: 1\n", 5, ConfigCause::UnknownKey),
    (b"debug[a b]: 1\n", 5, ConfigCause::UnknownKey),
    (b"debug[a: 1\n", 5, ConfigCause::UnknownKey),
    (b"debug [a]: 1\n", 5, ConfigCause::UnknownKey),
    (b"debug[a]]: 1\n", 5, ConfigCause::UnknownKey),
    (b"Debug: 1\n", 5, ConfigCause::UnknownKey),
    (
        b"debug[aaaaaaaaaaaaaaaaaaaaaaaaaaaaaaaaa]: 1\n",
        5,
        ConfigCause::UnknownKey,
    ),
    (b"debug: 1\ndebug: 2\n", 6, ConfigCause::Repeated),
    (b"debug[x]: 1\ndebug[x]: 2\n", 6, ConfigCause::Repeated),
    (b"nfacctd_port[p]: 1\n", 5, ConfigCause::NotInProfile),
    (
        b"nfacctd_port[p]: bad\nnfacctd_port[p]: 1\n",
        5,
        ConfigCause::NotInProfile,
    ),
    (b"print_output: avro\n", 5, ConfigCause::NotInProfile),
    (
        b"print_output: csv\nprint_output: avro\n",
        6,
        ConfigCause::NotInProfile,
    ),
    (
        b"print_output: csv\nprint_output: bad\n",
        6,
        ConfigCause::Repeated,
    ),
    (b"print_output[q]: avro\n", 5, ConfigCause::NotInProfile),
    (b"print_output[q]: bad\n", 5, ConfigCause::UnknownPlugin),
    (b"print_output[p]: bad\n", 5, ConfigCause::BadValue),
    (
        b"print_output_file_append[p]: false\n",
        5,
        ConfigCause::NotInProfile,
    ),
    (b"nfacctd_as: longest\n", 5, ConfigCause::NotInProfile),
    (b"sfacctd_as: file\n", 5, ConfigCause::NotInProfile),
    (b"sfacctd_as: netflow\n", 5, ConfigCause::BadValue),
    (b"nfacctd_as: bgp\n", 0, ConfigCause::MissingKey),
    (
        b"nfacctd_as: bmp\nbgp_daemon: true\nacct_route_capture: r\n",
        0,
        ConfigCause::MissingKey,
    ),
    (
        b"nfacctd_as: bgp\nbgp_daemon: true\n",
        0,
        ConfigCause::MissingKey,
    ),
    (b"plugins: print[p]\n", 5, ConfigCause::Repeated),
    (b"aggregate:\n", 5, ConfigCause::UnknownPrimitive),
    (b"aggregate: src_host,\n", 5, ConfigCause::UnknownPrimitive),
    (
        b"aggregate: src_host, what\n",
        5,
        ConfigCause::UnknownPrimitive,
    ),
    (b"print_refresh_time: 0\n", 5, ConfigCause::BadValue),
    (b"print_refresh_time: 86401\n", 5, ConfigCause::BadValue),
    (b"acct_ring_records: 65537\n", 5, ConfigCause::BadValue),
    (b"nfacctd_port: 0\n", 5, ConfigCause::BadValue),
    (b"nfacctd_port: 65536\n", 5, ConfigCause::BadValue),
    (b"acct_replay_lag: 00\n", 5, ConfigCause::BadValue),
    (b"acct_replay_lag: +1\n", 5, ConfigCause::BadValue),
    (b"acct_replay_lag: 4294967296\n", 5, ConfigCause::BadValue),
    (
        b"acct_replay_lag: 99999999999999999999999\n",
        5,
        ConfigCause::BadValue,
    ),
    (b"acct_bgp_hold: 2\n", 5, ConfigCause::BadValue),
    (b"acct_stop_after: 0\n", 5, ConfigCause::BadValue),
    (b"bgp_daemon: yes\n", 5, ConfigCause::BadValue),
    (b"acct_bgp_id: 0.0.0.0\n", 5, ConfigCause::BadValue),
    (b"acct_bgp_id: 192.0.2.01\n", 5, ConfigCause::BadValue),
    (b"acct_bgp_id: ::\n", 5, ConfigCause::BadValue),
    (b"acct_bgp_id: 1::1\n", 5, ConfigCause::BadValue),
    (b"acct_bgp_id: ::ffff\n", 5, ConfigCause::BadValue),
    (b"acct_bgp_id: 1:2:3:4:5:6:7:8\n", 5, ConfigCause::BadValue),
    (
        b"acct_bgp_id: 1:2:3:4:5:6:7:8:9\n",
        5,
        ConfigCause::BadValue,
    ),
    (
        b"pre_tag_map: ffffffffffffffffffffffffffffffffffffffffffffffffffffffffffffffffffffffffffffffffffffffffffffffffffffffffffffffffffffffffffffffffffffffffffffffffffffffffffffffffffffffffffffffffffffffffffffffffffffffffffffffffffffffffffffffffffffffffffffffffffffffffffffffff\n",
        5,
        ConfigCause::BadValue,
    ),
    (b"pre_tag_map:\n", 5, ConfigCause::BadValue),
    (b"acct_audit_file: flows.cap\n", 0, ConfigCause::SameName),
    (b"acct_audit_file: p.csv\n", 0, ConfigCause::SameName),
    (b"pre_tag_map: p.csv\n", 0, ConfigCause::SameName),
    (b"sampling_map: audit.txt\n", 0, ConfigCause::SameName),
    (b"acct_route_capture: flows.cap\n", 0, ConfigCause::SameName),
];

static TAKEN_ONES: [Taken; 28] = [
    TAKEN,
    Taken {
        tool: Tool::Sfacctd,
        ..TAKEN
    },
    Taken {
        text: b"! a comment \x80\n# another\n \t \n",
        ..TAKEN
    },
    Taken {
        base: b"",
        text: b"plugins: print[p]\r\nprint_output_file[p]: p.csv\r\nprint_output_file_append: true\r\nacct_flow_capture: flows.cap\r\n",
        ..TAKEN
    },
    Taken {
        text: b"debug: true",
        ..TAKEN
    },
    Taken {
        text: b"\tdebug\t:\t1\n",
        ..TAKEN
    },
    Taken {
        text: b"debug: a~\n",
        ..TAKEN
    },
    Taken {
        text: b"debug[aaaaaaaaaaaaaaaaaaaaaaaaaaaaaaaa]: 1\n",
        ..TAKEN
    },
    Taken {
        text: b"debug[x]: 1\ndebug[y]: 1\ndebug: \n",
        ..TAKEN
    },
    Taken {
        text: b"sfacctd_as: bgp\n",
        from: (AsFrom::Export, AsFrom::Bgp),
        ..TAKEN
    },
    Taken {
        text: b"nfacctd_as: bgp\nbgp_daemon: true\nacct_route_capture: r\n",
        from: (AsFrom::Bgp, AsFrom::Export),
        route_capture: b"r",
        ..TAKEN
    },
    Taken {
        text: b"acct_route_capture: r\n",
        route_capture: b"r",
        ..TAKEN
    },
    Taken {
        base: b"",
        text: b"plugins: print[p]\nprint_output_file[p]: p.csv\nprint_output_file_append: true\n",
        flow_capture: b"",
        ..TAKEN
    },
    Taken {
        base: b"",
        text: b"plugins: memory[m]\nacct_memory_file[m]: m.txt\n",
        kind: PluginKind::Memory,
        plugin: b"m",
        file: b"m.txt",
        flow_capture: b"",
        ..TAKEN
    },
    Taken {
        text: b"aggregate: src_host ,\tflows,src_host\n",
        flows: true,
        ..TAKEN
    },
    Taken {
        text: b"print_refresh_time: 86400\n",
        refresh: 86400,
        ..TAKEN
    },
    Taken {
        text: b"acct_cache_entries: 65536\nacct_ring_records: 65536\n",
        cache: 65536,
        ring: 65536,
        ..TAKEN
    },
    Taken {
        text: b"nfacctd_port: 65535\n",
        port: 65535,
        ..TAKEN
    },
    Taken {
        text: b"acct_replay_lag: 0\n",
        ..TAKEN
    },
    Taken {
        text: b"acct_replay_lag: 4294967295\n",
        lag: 4294967295,
        ..TAKEN
    },
    Taken {
        text: b"acct_bgp_hold: 0\n",
        hold: 0,
        ..TAKEN
    },
    Taken {
        text: b"acct_bgp_hold: 3\n",
        hold: 3,
        ..TAKEN
    },
    Taken {
        text: b"acct_bgp_id: 192.0.2.1\n",
        id: Addr::V4(0xc000_0201),
        ..TAKEN
    },
    Taken {
        text: b"pre_tag_map: fffffffffffffffffffffffffffffffffffffffffffffffffffffffffffffffffffffffffffffffffffffffffffffffffffffffffffffffffffffffffffffffffffffffffffffffffffffffffffffffffffffffffffffffffffffffffffffffffffffffffffffffffffffffffffffffffffffffffffffffffffffffffffffff\n",
        pre_tag_map: b"fffffffffffffffffffffffffffffffffffffffffffffffffffffffffffffffffffffffffffffffffffffffffffffffffffffffffffffffffffffffffffffffffffffffffffffffffffffffffffffffffffffffffffffffffffffffffffffffffffffffffffffffffffffffffffffffffffffffffffffffffffffffffffffff",
        ..TAKEN
    },
    Taken {
        text: b"pre_tag_map: a:b c\n",
        pre_tag_map: b"a:b c",
        ..TAKEN
    },
    Taken {
        text: b"acct_dump_file: p.csv\n",
        dump: b"p.csv",
        ..TAKEN
    },
    Taken {
        text: b"pre_tag_map: m\nbgp_agent_map: m\n",
        agent_map: b"m",
        pre_tag_map: b"m",
        ..TAKEN
    },
    Taken {
        text: b"acct_audit_file: ./p.csv\n",
        audit: b"./p.csv",
        ..TAKEN
    },
];

/// A configuration of pmbgpd, and the maps of tags, the captures of flows and of routes that it has.
static OF_PMBGPD: [[&[u8]; 4]; 4] = [
    [b"", b"", b"", b""],
    [b"plugins: print[p]\n", b"", b"", b""],
    [
        b"acct_route_capture: audit.txt\nacct_flow_capture: audit.txt\n",
        b"",
        b"audit.txt",
        b"audit.txt",
    ],
    [b"pre_tag_map: dump.txt\n", b"dump.txt", b"", b""],
];

#[derive(Clone, Copy, PartialEq, Debug)]
enum Wanted {
    Config(&'static [u8]),
    Generate(u32),
    Refused,
    Neither,
    Both,
}

/// A command line of a tool, its words with blanks between them.
type Line = (Tool, &'static str, Wanted);

static LINES: [Line; 59] = [
    (Tool::Nfacctd, "-f a.conf", Wanted::Config(b"a.conf")),
    (Tool::Nfacctd, "-fFILE", Wanted::Config(b"FILE")),
    (Tool::Nfacctd, "-f=FILE", Wanted::Config(b"FILE")),
    (Tool::Nfacctd, "-f=", Wanted::Config(b"")),
    (Tool::Nfacctd, "-f -", Wanted::Config(b"-")),
    (Tool::Nfacctd, "-f a --", Wanted::Config(b"a")),
    (Tool::Nfacctd, "-f -x", Wanted::Refused),
    (Tool::Nfacctd, "-f --", Wanted::Refused),
    (Tool::Nfacctd, "-f a -f b", Wanted::Refused),
    (Tool::Nfacctd, "a.conf", Wanted::Refused),
    (Tool::Nfacctd, "-f a b", Wanted::Refused),
    (Tool::Nfacctd, "-f", Wanted::Refused),
    (Tool::Nfacctd, "--help", Wanted::Refused),
    (Tool::Nfacctd, "-V", Wanted::Refused),
    (Tool::Nfacctd, "", Wanted::Neither),
    (Tool::Nfacctd, "--gen 3", Wanted::Refused),
    (Tool::Sfacctd, "-f a.conf", Wanted::Config(b"a.conf")),
    (Tool::Sfacctd, "-fFILE", Wanted::Config(b"FILE")),
    (Tool::Sfacctd, "-f=FILE", Wanted::Config(b"FILE")),
    (Tool::Sfacctd, "-f=", Wanted::Config(b"")),
    (Tool::Sfacctd, "-f -", Wanted::Config(b"-")),
    (Tool::Sfacctd, "-f a --", Wanted::Config(b"a")),
    (Tool::Sfacctd, "-f -x", Wanted::Refused),
    (Tool::Sfacctd, "-f --", Wanted::Refused),
    (Tool::Sfacctd, "-f a -f b", Wanted::Refused),
    (Tool::Sfacctd, "a.conf", Wanted::Refused),
    (Tool::Sfacctd, "-f a b", Wanted::Refused),
    (Tool::Sfacctd, "-f", Wanted::Refused),
    (Tool::Sfacctd, "--help", Wanted::Refused),
    (Tool::Sfacctd, "-V", Wanted::Refused),
    (Tool::Sfacctd, "", Wanted::Neither),
    (Tool::Sfacctd, "--gen 3", Wanted::Refused),
    (Tool::Pmbgpd, "-f a.conf", Wanted::Config(b"a.conf")),
    (Tool::Pmbgpd, "-fFILE", Wanted::Config(b"FILE")),
    (Tool::Pmbgpd, "-f=FILE", Wanted::Config(b"FILE")),
    (Tool::Pmbgpd, "-f=", Wanted::Config(b"")),
    (Tool::Pmbgpd, "-f -", Wanted::Config(b"-")),
    (Tool::Pmbgpd, "-f a --", Wanted::Config(b"a")),
    (Tool::Pmbgpd, "-f -x", Wanted::Refused),
    (Tool::Pmbgpd, "-f --", Wanted::Refused),
    (Tool::Pmbgpd, "-f a -f b", Wanted::Refused),
    (Tool::Pmbgpd, "a.conf", Wanted::Refused),
    (Tool::Pmbgpd, "-f a b", Wanted::Refused),
    (Tool::Pmbgpd, "-f", Wanted::Refused),
    (Tool::Pmbgpd, "--help", Wanted::Refused),
    (Tool::Pmbgpd, "-V", Wanted::Refused),
    (Tool::Pmbgpd, "", Wanted::Neither),
    (Tool::Pmbgpd, "--gen 3", Wanted::Refused),
    (Tool::Nfacctd, "--generate=3", Wanted::Generate(3)),
    (Tool::Nfacctd, "--generate +3", Wanted::Generate(3)),
    (Tool::Nfacctd, "--generate 007", Wanted::Generate(7)),
    (Tool::Nfacctd, "--generate 100000", Wanted::Generate(100000)),
    (Tool::Nfacctd, "--generate 100001", Wanted::Refused),
    (Tool::Nfacctd, "--generate 0", Wanted::Refused),
    (Tool::Nfacctd, "--generate x", Wanted::Refused),
    (Tool::Nfacctd, "-f a --generate 3", Wanted::Both),
    (Tool::Nfacctd, "--generate 3 --generate 4", Wanted::Refused),
    (Tool::Sfacctd, "--generate 3", Wanted::Refused),
    (Tool::Pmbgpd, "--generate 3", Wanted::Refused),
];

const MOST: usize = 1_048_576;

fn fault_of(alloc: Global, tool: Tool, text: &[u8]) -> Result<Option<ConfigFault>, Fail> {
    if text.len() > MOST {
        return Err(Fail::from("too long"));
    }
    match read_config(alloc, tool, text) {
        Ok(_) => Ok(None),
        Err(fault) => Ok(Some(fault)),
    }
}

// The proof of a test needn't read the tables.
fn faults() -> &'static [Fault] {
    &FAULTS
}

fn faults_behind() -> &'static [FaultBehind] {
    &FAULTS_BEHIND
}

fn taken_ones() -> &'static [Taken] {
    &TAKEN_ONES
}

fn of_pmbgpd() -> &'static [[&'static [u8]; 4]] {
    &OF_PMBGPD
}

fn lines() -> &'static [Line] {
    &LINES
}

#[test]
fn configurations_have_their_faults(rt: HostRuntime) -> Result<(), Fail> {
    for (index, (tool, text, line, cause)) in faults().iter().enumerate() {
        let wanted = ConfigFault::At {
            line: *line,
            cause: *cause,
        };
        let found = fault_of(rt.alloc(), *tool, text)?;
        assert_eq!(rt; found, Some(wanted), "configuration {index}");
    }
    for (index, (text, line, cause)) in faults_behind().iter().enumerate() {
        let wanted = ConfigFault::At {
            line: *line,
            cause: *cause,
        };
        let whole = joined(rt.alloc(), &[BASE, text])?;
        let found = fault_of(rt.alloc(), Tool::Nfacctd, whole.as_slice())?;
        assert_eq!(rt; found, Some(wanted), "behind the base, {index}");
    }
    Ok(())
}

fn has_plugin(config: &Config, wanted: &Taken) -> bool {
    let [plugin] = config.plugins.as_slice() else {
        return false;
    };
    plugin.kind == wanted.kind
        && same(&plugin.name, wanted.plugin)
        && same(&plugin.file, wanted.file)
        && plugin.primitives.has(Column::SrcHost)
        && plugin.primitives.flows == wanted.flows
        && plugin.refresh == wanted.refresh
        && plugin.cache == wanted.cache
        && plugin.ring == wanted.ring
}

fn has_numbers(config: &Config, wanted: &Taken) -> bool {
    config.tool == wanted.tool
        && config.nfacctd_port == wanted.port
        && config.acct_replay_lag == wanted.lag
        && config.acct_bgp_hold == wanted.hold
        && config.acct_bgp_id == wanted.id
        && config.nfacctd_as == wanted.from.0
        && config.sfacctd_as == wanted.from.1
}

fn has_names(config: &Config, wanted: &Taken) -> bool {
    is(&config.pre_tag_map, wanted.pre_tag_map)
        && is(&config.bgp_agent_map, wanted.agent_map)
        && is(&config.acct_flow_capture, wanted.flow_capture)
        && is(&config.acct_route_capture, wanted.route_capture)
        && same(&config.acct_audit_file, wanted.audit)
        && same(&config.acct_dump_file, wanted.dump)
}

#[test]
fn configurations_are_read(rt: HostRuntime) -> Result<(), Fail> {
    for (index, wanted) in taken_ones().iter().enumerate() {
        let whole = joined(rt.alloc(), &[wanted.base, wanted.text])?;
        let config = read(rt.alloc(), wanted.tool, whole.as_slice())?;
        assert!(rt; has_plugin(&config, wanted), "the plugin of {index}");
        assert!(rt; has_numbers(&config, wanted), "the numbers of {index}");
        assert!(rt; has_names(&config, wanted), "the names of {index}");
    }
    Ok(())
}

fn words_in(alloc: Global, line: &str) -> Result<Vec<String>, AllocError> {
    let mut words = Vec::new(alloc);
    for word in line.split(' ') {
        if !word.is_empty() {
            words.push(String::from_str(alloc, word)?)?;
        }
    }
    Ok(words)
}

fn meets(alloc: Global, line: Line) -> Result<bool, Fail> {
    let (tool, text, wanted) = line;
    let words = words_in(alloc, text)?;
    Ok(match (read_words(alloc, tool, &words), wanted) {
        (Ok(Words::Config(file)), Wanted::Config(wanted)) => file.as_slice() == wanted,
        (Ok(Words::Generate(number)), Wanted::Generate(wanted)) => number == wanted,
        (Err(UsageFault::Refused), Wanted::Refused) => true,
        (Err(UsageFault::Neither), Wanted::Neither) => true,
        (Err(UsageFault::Both), Wanted::Both) => true,
        _ => false,
    })
}

#[test]
fn command_lines_have_their_answers(rt: HostRuntime) -> Result<(), Fail> {
    for (index, line) in lines().iter().enumerate() {
        assert!(rt; meets(rt.alloc(), *line)?, "command line {index}");
    }
    Ok(())
}

fn read(alloc: Global, tool: Tool, text: &[u8]) -> Result<Config, Fail> {
    if text.len() > MOST {
        return Err(Fail::from("too long"));
    }
    Ok(read_config(alloc, tool, text)?)
}

static FULL: &'static [u8] = b"plugins: memory[all], print\n\
acct_memory_file: all.txt\nprint_output_file[print]: hosts.csv\nprint_output_file: other.csv\n\
print_output_file_append[print]: true\naggregate[all]: dst_as, flows\nprint_output: csv\n\
print_output[all]: json\nprint_refresh_time: 300\nprint_refresh_time[all]: 1\n\
acct_cache_entries[all]: 7\nacct_ring_records: 8\nacct_ring_wait[print]: false\n\
nfacctd_port: 2055\nsfacctd_port: 6344\nnfacctd_renormalize: true\nsfacctd_renormalize: true\n\
nfacctd_as: bgp\nsfacctd_as: bmp\npre_tag_map: tags\nbgp_agent_map: agents\nsampling_map: rates\n\
bgp_daemon: true\nbmp_daemon: true\nbgp_daemon_port: 1179\nbmp_daemon_port: 1791\n\
acct_flow_capture: flows.cap\nacct_route_capture: routes.cap\nacct_audit_file: a.txt\n\
acct_dump_file: d.txt\nacct_threads: false\nacct_replay_lag: 5\nacct_bgp_hold: 3\n\
acct_bgp_id: 192.0.2.1\nacct_stop_after: 9\n";

fn full() -> &'static [u8] {
    FULL
}

fn same(name: &Text, wanted: &[u8]) -> bool {
    name.as_slice() == wanted
}

fn is(name: &Option<Text>, wanted: &[u8]) -> bool {
    match name {
        None => wanted.is_empty(),
        Some(name) => name.as_slice() == wanted,
    }
}

fn has_full_numbers(config: &Config) -> bool {
    config.nfacctd_port == 2055
        && config.sfacctd_port == 6344
        && config.bgp_daemon_port == 1179
        && config.bmp_daemon_port == 1791
        && config.acct_replay_lag == 5
        && config.acct_bgp_hold == 3
        && config.acct_stop_after == 9
        && config.acct_bgp_id == Addr::V4(0xc000_0201)
}

fn has_full_truths(config: &Config) -> bool {
    config.nfacctd_renormalize
        && config.sfacctd_renormalize
        && config.bgp_daemon
        && config.bmp_daemon
        && !config.acct_threads
        && config.tool == Tool::Nfacctd
        && config.nfacctd_as == AsFrom::Bgp
        && config.sfacctd_as == AsFrom::Bmp
}

fn has_full_names(config: &Config) -> bool {
    is(&config.pre_tag_map, b"tags")
        && is(&config.bgp_agent_map, b"agents")
        && is(&config.sampling_map, b"rates")
        && is(&config.acct_flow_capture, b"flows.cap")
        && is(&config.acct_route_capture, b"routes.cap")
        && same(&config.acct_audit_file, b"a.txt")
        && same(&config.acct_dump_file, b"d.txt")
}

fn has_full_outputs(config: &Config) -> bool {
    has_output(config, b"a.txt")
        && has_output(config, b"hosts.csv")
        && has_output(config, b"all.txt")
        && !has_output(config, b"d.txt")
}

fn is_memory(plugin: &PluginConfig) -> bool {
    same(&plugin.name, b"all")
        && same(&plugin.file, b"all.txt")
        && plugin.kind == PluginKind::Memory
        && plugin.primitives == Primitives::none().with(Column::DstAs).with_flows()
        && plugin.layout == Layout::Json
        && plugin.refresh == 1
        && plugin.ring == 8
        && plugin.wait
        && plugin.cache == 7
}

fn is_print(plugin: &PluginConfig) -> bool {
    same(&plugin.name, b"print")
        && same(&plugin.file, b"hosts.csv")
        && plugin.kind == PluginKind::Print
        && plugin.primitives == Primitives::none().with(Column::SrcHost)
        && plugin.layout == Layout::Csv
        && plugin.refresh == 300
        && plugin.ring == 8
        && !plugin.wait
        && plugin.cache == 16384
}

#[test]
fn a_full_configuration_is_read(rt: HostRuntime) -> Result<(), Fail> {
    let config = read(rt.alloc(), Tool::Nfacctd, full())?;
    assert!(rt; has_full_numbers(&config));
    assert!(rt; has_full_truths(&config));
    assert!(rt; has_full_names(&config));
    assert!(rt; has_full_outputs(&config));
    match config.plugins.as_slice() {
        [first, second] => assert!(rt; is_memory(first) && is_print(second)),
        _ => return Err(Fail::from("not two plugins")),
    }
    Ok(())
}

fn has_default_numbers(config: &Config) -> bool {
    config.nfacctd_port == 2100
        && config.sfacctd_port == 6343
        && config.bgp_daemon_port == 179
        && config.bmp_daemon_port == 1790
        && config.acct_replay_lag == 0
        && config.acct_bgp_hold == 180
        && config.acct_stop_after == 4294967295
        && config.acct_bgp_id == Addr::V4(0x7f00_0001)
}

fn has_default_truths(config: &Config) -> bool {
    !config.nfacctd_renormalize
        && !config.sfacctd_renormalize
        && config.bgp_daemon
        && !config.bmp_daemon
        && config.acct_threads
        && config.nfacctd_as == AsFrom::Export
        && config.sfacctd_as == AsFrom::Export
}

fn has_default_names(config: &Config) -> bool {
    same(&config.acct_audit_file, b"audit.txt")
        && same(&config.acct_dump_file, b"dump.txt")
        && has_output(config, b"dump.txt")
        && !has_output(config, b"audit.txt")
}

#[test]
fn configurations_of_pmbgpd_have_the_defaults(rt: HostRuntime) -> Result<(), Fail> {
    for (index, [text, map, flows, routes]) in of_pmbgpd().iter().enumerate() {
        let config = read(rt.alloc(), Tool::Pmbgpd, text)?;
        assert!(rt; has_default_numbers(&config), "the numbers of {index}");
        assert!(rt; has_default_truths(&config), "the truths of {index}");
        assert!(rt; has_default_names(&config), "the names of {index}");
        assert!(rt; is(&config.pre_tag_map, map), "the map of {index}");
        assert!(rt;
            is(&config.acct_flow_capture, flows),
            "the flows of {index}"
        );
        assert!(rt;
            is(&config.acct_route_capture, routes),
            "the routes of {index}"
        );
        assert!(rt; config.plugins.is_empty(), "the plugins of {index}");
    }
    Ok(())
}

#[test]
fn faults_are_printed(rt: HostRuntime) -> Result<(), Fail> {
    let fault = ConfigFault::At {
        line: 7,
        cause: ConfigCause::UnknownPlugin,
    };
    let text = fault.to_string(rt.alloc())?;
    assert!(rt; text.as_str() == "line 7: unknown-plugin");
    let text = UsageFault::Neither.to_string(rt.alloc())?;
    assert!(rt; text.as_str() == "no option is given");
    Ok(())
}
