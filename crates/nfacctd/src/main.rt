//! Reads a capture of NetFlow and IPFIX datagrams, and writes their counters.
#![tactic(auto)]

use config_keys::Tool;
use std::process::ExitCode;

fn main(rt: HostRuntime) -> ExitCode {
    let out = rt.stdout();
    ExitCode::from(program::run(rt, Tool::Nfacctd, out))
}
