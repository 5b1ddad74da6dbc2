//! Maps that say whose routes an exporter's are.

ghost use Rattle.std.specs.Prelude.{◌≡◌, ◌≤◌, [], length};
ghost use Rattle.pretag_map.specs.AgentLines.{agent_map_of, rib_of, rib_with, serves};
ghost use Rattle.pretag_map.specs.Rules.{RulesAre};

use crate::fault::{MapCause, MapFault};
use crate::judge::line_members;
use crate::keys::agent_keys;
use crate::rules::{Rule, read_rules};
use crate::value::{address_given, network_given};
use acct_types::{Addr, List, NoMemory, Prefix, Rib, Side};
use std::alloc::Global;
use std::marker::Model;

/// A line of a map of agents: whose routes are those of some exporters.
#[derive(Debug, Drop)]
struct AgentLine {
    /// The network of the exporters.
    exporter: Prefix,
    /// The address of the BGP session or of the BMP router.
    router: Addr,
    /// The address of the router's peer whose routes are taken, in place of all peers.
    peer: Option<Addr>,
}

impl Model for AgentLine {
    ghost use Rattle.pretag_map.specs.AgentLines.{AgentLine};

    ghost Value = { AgentLine };

    ghost use Rattle.pretag_map.specs.Views.{network_view};

    ghost view = { λ line. record {
      exporter = network_view line.exporter;
      router = line.router;
      peer = line.peer;
    } };
}

fn rib_with(router: Addr, peer: Option<Addr>, side: Side) -> Rib
    ensures { result ≡ rib_with router peer side }
{
    match side {
        Side::Bgp => Rib::Bgp(router),
        Side::Bmp => Rib::Bmp(router, peer),
    }
}

impl AgentLine {
    fn serves(&self, exporter: &Addr) -> bool
        ensures { result ≡ serves exporter.now self.now }
    {
        self.exporter.covers(exporter)
    }

    fn rib(&self, side: Side) -> Rib
        ensures { result ≡ rib_with self.now.router self.now.peer side }
    {
        rib_with(self.router, self.peer, side)
    }
}

impl Rule for AgentLine {
    ghost use Rattle.pretag_map.specs.AgentLines.{agent_line};

    ghost said = { agent_line };

    fn read(alloc: Global, line: &[u8]) -> Result<Result<AgentLine, MapCause>, NoMemory> {
        match line_members(alloc, agent_keys(), line)? {
            Err(cause) => Ok(Err(cause)),
            Ok(members) => match (
                network_given(&members, b"ip"),
                address_given(&members, b"bgp_ip"),
            ) {
                (Some(exporter), Some(router)) => Ok(Ok(AgentLine {
                    exporter,
                    router,
                    peer: address_given(&members, b"acct_peer"),
                })),
                _ => Ok(Err(MapCause::MissingKey)),
            },
        }
    }
}

/// Whose routes the exporters' are, at most 4,096 lines, which contracts see as their list. The first that holds wins.
#[derive(Debug, Drop)]
pub struct AgentMap {
    lines: List<AgentLine>,
}

impl Model for AgentMap {
    ghost use Rattle.std.specs.Prelude.{List as Sequence};
    ghost use Rattle.pretag_map.specs.AgentLines.{AgentLine};

    ghost Value = { Sequence AgentLine };

    ghost view = { λ map. map.lines };
}

/// The map of agents in a text of at most 1,048,576 octets. Its lines are formed as those of a map of tags: `ip` (an
/// address or a prefix) and `bgp_ip` (an address) are required, `acct_peer` is the address of a peer by BMP. The fault is
/// the first cause of the first line that has one.
pub fn read_agent_map(alloc: Global, text: &[u8]) -> Result<AgentMap, MapFault>
    requires { length text.now ≤ 1048576 }
    ensures { RulesAre result (agent_map_of text.now) }
{
    Ok(AgentMap {
        lines: read_rules(alloc, text)?,
    })
}

impl AgentMap {
    /// No line, which takes no memory.
    pub fn empty(alloc: Global) -> AgentMap
        ensures { result ≡ [] }
    {
        AgentMap {
            lines: List::new(alloc),
        }
    }

    /// Whose routes an exporter's are, as the first line says that covers it; without one they are those of its own
    /// address. Takes no memory.
    pub fn rib(&self, exporter: &Addr, side: Side) -> Rib
        ensures { result ≡ rib_of self.now exporter.now side }
    {
        for line in self.lines.as_slice() {
            if line.serves(exporter) {
                return line.rib(side);
            }
        }
        rib_with(*exporter, None, side)
    }
}
