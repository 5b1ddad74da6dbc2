//! Maps that give rates of sampling.

ghost use Rattle.std.specs.Prelude.{◌≡◌, ◌≤◌, [], IfSome, codes, length, map};
ghost use Rattle.pretag_map.specs.Keys.{rate_range};
ghost use Rattle.pretag_map.specs.Rules.{RulesAre};
ghost use Rattle.pretag_map.specs.SamplingLines.{rate_of, samples, sampling_map_of};
ghost use Rattle.pretag_map.specs.Values.{number_given};
ghost use Rattle.pretag_map.specs.Views.{member_view};

use crate::condition::equals_if;
use crate::fault::{MapCause, MapFault};
use crate::judge::line_members;
use crate::keys::{ANY_NUMBER, RATE, sampling_keys};
use crate::member::Member;
use crate::rules::{Rule, read_rules};
use crate::value::{network_given, number_given};
use acct_types::{Addr, List, NoMemory, Prefix};
use std::alloc::Global;
use std::marker::Model;

/// A line of a map of sampling rates.
#[derive(Debug, Drop)]
struct SamplingLine {
    /// The network of the exporters.
    exporter: Prefix,
    in_iface: Option<u64>,
    out_iface: Option<u64>,
    /// One of so many packets is seen, at least 1.
    rate: u32,
}

impl Model for SamplingLine {
    ghost use Rattle.pretag_map.specs.SamplingLines.{SamplingLine};

    ghost Value = { SamplingLine };

    ghost use Rattle.std.specs.Prelude.{◌≤◌};
    ghost use Rattle.pretag_map.specs.Views.{network_view};

    ghost view = { λ line. record {
      exporter = network_view line.exporter;
      in_iface = line.in_iface;
      out_iface = line.out_iface;
      rate = line.rate;
    } };

    ghost invariant = { λ line. 1 ≤ line.rate };
}

impl SamplingLine {
    fn samples(&self, exporter: &Addr, in_iface: u64, out_iface: u64) -> bool
        ensures { result ≡ samples exporter.now in_iface out_iface self.now }
    {
        self.exporter.covers(exporter)
            && equals_if(self.in_iface, in_iface)
            && equals_if(self.out_iface, out_iface)
    }

    fn rate(&self) -> u32
        ensures value { result ≡ self.now.rate }
        ensures some { 1 ≤ result }
    {
        self.rate
    }
}

fn rate_given(members: &[Member<'_>]) -> Option<u32>
    ensures value { result ≡ number_given rate_range (map member_view members.now) (codes "sampling_rate") }
    ensures some { IfSome result (λ rate. 1 ≤ rate) }
{
    match number_given(RATE, members, b"sampling_rate") {
        Some(rate) => Some(rate as u32),
        None => None,
    }
}

impl Rule for SamplingLine {
    ghost use Rattle.pretag_map.specs.SamplingLines.{sampling_line};

    ghost said = { sampling_line };

    fn read(alloc: Global, line: &[u8]) -> Result<Result<SamplingLine, MapCause>, NoMemory> {
        match line_members(alloc, sampling_keys(), line)? {
            Err(cause) => Ok(Err(cause)),
            Ok(members) => match (network_given(&members, b"ip"), rate_given(&members)) {
                (Some(exporter), Some(rate)) => Ok(Ok(SamplingLine {
                    exporter,
                    in_iface: number_given(ANY_NUMBER, &members, b"in"),
                    out_iface: number_given(ANY_NUMBER, &members, b"out"),
                    rate,
                })),
                _ => Ok(Err(MapCause::MissingKey)),
            },
        }
    }
}

/// Rates of sampling, at most 4,096 lines, which contracts see as their list. The first that holds wins.
#[derive(Debug, Drop)]
pub struct SamplingMap {
    lines: List<SamplingLine>,
}

impl Model for SamplingMap {
    ghost use Rattle.std.specs.Prelude.{List as Sequence};
    ghost use Rattle.pretag_map.specs.SamplingLines.{SamplingLine};

    ghost Value = { Sequence SamplingLine };

    ghost view = { λ map. map.lines };
}

/// The map of sampling rates in a text of at most 1,048,576 octets. Its lines are formed as those of a map of tags: `ip`
/// (an address or a prefix) and `sampling_rate` (1 to 4,294,967,295) are required, `in` and `out` are interfaces. The
/// fault is the first cause of the first line that has one.
pub fn read_sampling_map(alloc: Global, text: &[u8]) -> Result<SamplingMap, MapFault>
    requires { length text.now ≤ 1048576 }
    ensures { RulesAre result (sampling_map_of text.now) }
{
    Ok(SamplingMap {
        lines: read_rules(alloc, text)?,
    })
}

impl SamplingMap {
    /// No line, which takes no memory.
    pub fn empty(alloc: Global) -> SamplingMap
        ensures { result ≡ [] }
    {
        SamplingMap {
            lines: List::new(alloc),
        }
    }

    /// The rate of the first line of which all conditions hold: one of so many packets is seen. An interface that a
    /// record lacks is 0. Takes no memory.
    pub fn rate(&self, exporter: &Addr, in_iface: u64, out_iface: u64) -> Option<u32>
        ensures value { result ≡ rate_of self.now exporter.now in_iface out_iface }
        ensures some { IfSome result (λ rate. 1 ≤ rate) }
    {
        for line in self.lines.as_slice() {
            if line.samples(exporter, in_iface, out_iface) {
                return Some(line.rate());
            }
        }
        None
    }
}
