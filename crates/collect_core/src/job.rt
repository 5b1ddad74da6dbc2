ghost use Rattle.std.specs.Prelude.{◌≡◌};
ghost use Rattle.config_keys.specs.ConfigViews.{says};
ghost use Rattle.collect_core.specs.Job.{as_of, collects, renormalises};

use acct_types::AsFrom;
use config_keys::{Config, Tool};
use pretag_map::{AgentMap, SamplingMap, TagMap};

/// What a run is to do: what a configuration says, and what its maps say.
#[derive(Drop)]
pub struct Job {
    pub config: Config,
    pub tags: TagMap,
    pub agents: AgentMap,
    pub samplings: SamplingMap,
}

/// Whether a tool collects flows.
pub fn collects(tool: Tool) -> bool
    ensures { result ≡ collects tool }
{
    match tool {
        Tool::Nfacctd | Tool::Sfacctd => true,
        Tool::Pmbgpd => false,
    }
}

impl Job {
    /// Where the systems, masks and next hops of records come from, by the tool's own key.
    pub fn as_from(&self) -> AsFrom
        ensures { result ≡ as_of (says self.now.config) }
    {
        match self.config.tool {
            Tool::Sfacctd => self.config.sfacctd_as,
            Tool::Nfacctd | Tool::Pmbgpd => self.config.nfacctd_as,
        }
    }

    /// Whether bytes and packets are multiplied by sampling rates, by the tool's own key.
    pub fn renormalises(&self) -> bool
        ensures { result ≡ renormalises (says self.now.config) }
    {
        match self.config.tool {
            Tool::Sfacctd => self.config.sfacctd_renormalize,
            Tool::Nfacctd | Tool::Pmbgpd => self.config.nfacctd_renormalize,
        }
    }
}
