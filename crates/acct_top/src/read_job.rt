//! The job that a configuration gives.

ghost use Rattle.std.specs.Prelude.{◌≡◌, ◌≤◌, false, length, None, IfOk, IfSome, IfNone};
ghost use Rattle.config_keys.specs.ConfigViews.{IsReading, says};
ghost use Rattle.config_keys.specs.Reading.{shares_name};
ghost use Rattle.acct_top.specs.Job.{IsJobOf, built_config, is_unbuilt};

use acct_types::Text;
use collect_core::{Job, collects};
use config_keys::{Config, ConfigCause, ConfigFault, Tool, has_output, read_config};
use pretag_map::{AgentMap, SamplingMap, TagMap};
use std::alloc::Global;

// Whether a configuration asks for something that isn't built yet.
fn is_unbuilt(config: &Config) -> bool
    ensures { result ≡ is_unbuilt (says config.now) }
{
    !collects(config.tool)
        || config.bgp_daemon
        || config.bmp_daemon
        || config.bgp_agent_map.is_some()
}

fn at_no_line(cause: ConfigCause) -> ConfigFault
    ensures { result ≡ ConfigFault.At 0 cause }
{
    ConfigFault::At { line: 0, cause }
}

/// The configuration in the text of a file, as far as it is judged before its maps are read.
pub fn read_built(
    alloc: Global,
    tool: Tool,
    file: &Text,
    text: &[u8],
) -> Result<Config, ConfigFault>
    requires { length text.now ≤ 1048576 }
    ensures config { IsReading result (built_config tool file.now text.now) }
    ensures built { IfOk result (λ config. is_unbuilt (says config) ≡ false) }
    ensures apart { IfOk result (λ config. shares_name (says config) ≡ false) }
{
    let config = read_config(alloc, tool, text)?;
    if is_unbuilt(&config) {
        return Err(at_no_line(ConfigCause::NotInProfile));
    }
    if has_output(&config, file.as_slice()) {
        return Err(at_no_line(ConfigCause::SameName));
    }
    Ok(config)
}

/// The job of a configuration and of what its maps say, where there is a capture to replay.
pub fn job_of(config: Config, tags: TagMap, agents: AgentMap, samplings: SamplingMap) -> Option<Job>
    requires built { is_unbuilt (says config) ≡ false }
    requires apart { shares_name (says config) ≡ false }
    ensures job { IfSome result (λ job. IsJobOf job (says config)) }
    ensures tags { IfSome result (λ job. job.tags ≡ tags) }
    ensures agents { IfSome result (λ job. job.agents ≡ agents) }
    ensures samplings { IfSome result (λ job. job.samplings ≡ samplings) }
    ensures none { IfNone result (config.acct_flow_capture ≡ None) }
{
    if config.acct_flow_capture.is_none() {
        return None;
    }
    Some(Job {
        config,
        tags,
        agents,
        samplings,
    })
}
