//! Maps that tag records.

ghost use Rattle.std.specs.Prelude.{◌≡◌, ◌==◌, ◌+◌, ◌<◌, ◌≤◌, ◌^◌, [], true, IfOk, IfSome, length, map, option_map, position};
ghost use Rattle.pretag_map.specs.Labels.{is_label};
ghost use Rattle.pretag_map.specs.Rules.{RulesAre};
ghost use Rattle.pretag_map.specs.TagRules.{gives, has_action, holds, label_at, no_tags, tag_map_of, tag_rule, tags_of};
ghost use Rattle.pretag_map.specs.Views.{member_view, network_view};
ghost use Rattle.pretag_map.specs.declared.facts.TagFacts.{TagFacts};

use crate::condition::{covers_if, equals_if};
use crate::fault::{MapCause, MapFault};
use crate::judge::line_members;
use crate::keys::{ANY_NUMBER, tag_keys};
use crate::member::Member;
use crate::rules::{Rule, read_rules};
use crate::value::{label_given, network_given, number_given};
use crate::{TagFacts, Tags};
use acct_types::{List, NoMemory, Prefix, Text};
use std::alloc::Global;
use std::marker::Model;

/// A line of a map of tags: the conditions that it gives, and what it does where they hold.
#[derive(Debug, Drop)]
struct TagRule {
    /// The exporter is in this network.
    exporter: Option<Prefix>,
    src_net: Option<Prefix>,
    dst_net: Option<Prefix>,
    in_iface: Option<u64>,
    out_iface: Option<u64>,
    source_id: Option<u64>,
    src_as: Option<u64>,
    dst_as: Option<u64>,
    tag: Option<u64>,
    tag2: Option<u64>,
    label: Option<Text>,
}

impl Model for TagRule {
    ghost use Rattle.pretag_map.specs.TagRules.{TagRule};

    ghost Value = { TagRule };

    ghost use Rattle.std.specs.Prelude.{◌≡◌, true, IfSome, option_map};
    ghost use Rattle.pretag_map.specs.Labels.{is_label};
    ghost use Rattle.pretag_map.specs.Views.{network_view};

    ghost view = { λ rule. record {
      exporter = option_map network_view rule.exporter;
      in_iface = rule.in_iface;
      out_iface = rule.out_iface;
      source_id = rule.source_id;
      src_as = rule.src_as;
      dst_as = rule.dst_as;
      src_net = option_map network_view rule.src_net;
      dst_net = option_map network_view rule.dst_net;
      tag = rule.tag;
      tag2 = rule.tag2;
      label = rule.label;
    } };

    ghost invariant = { λ rule. IfSome rule.label (λ words. is_label words ≡ true) };
}

fn tag_rule(alloc: Global, members: &[Member<'_>]) -> Result<TagRule, NoMemory>
    ensures { IfOk result (λ rule. rule ≡ tag_rule (map member_view members.now)) }
{
    let label = label_given(alloc, members, b"set_label")?;
    Ok(TagRule {
        exporter: network_given(members, b"ip"),
        src_net: network_given(members, b"src_net"),
        dst_net: network_given(members, b"dst_net"),
        in_iface: number_given(ANY_NUMBER, members, b"in"),
        out_iface: number_given(ANY_NUMBER, members, b"out"),
        source_id: number_given(ANY_NUMBER, members, b"source_id"),
        src_as: number_given(ANY_NUMBER, members, b"src_as"),
        dst_as: number_given(ANY_NUMBER, members, b"dst_as"),
        tag: number_given(ANY_NUMBER, members, b"set_tag"),
        tag2: number_given(ANY_NUMBER, members, b"set_tag2"),
        label,
    })
}

impl TagRule {
    fn has_action(&self) -> bool
        ensures { result ≡ has_action self.now }
    {
        self.tag.is_some() || self.tag2.is_some() || self.label.is_some()
    }

    fn holds(&self, facts: &TagFacts) -> bool
        ensures { result ≡ holds facts.now self.now }
    {
        covers_if(&self.exporter, &facts.exporter)
            && covers_if(&self.src_net, &facts.src)
            && covers_if(&self.dst_net, &facts.dst)
            && equals_if(self.in_iface, facts.in_iface)
            && equals_if(self.out_iface, facts.out_iface)
            && equals_if(self.source_id, u64::from(facts.source_id))
            && equals_if(self.src_as, facts.src_as)
            && equals_if(self.dst_as, facts.dst_as)
    }

    // What the rule with this number gives.
    fn tags(&self, number: u32) -> Tags
        ensures { result ≡ gives number self.now }
    {
        Tags {
            tag: self.tag.unwrap_or(0),
            tag2: self.tag2.unwrap_or(0),
            label: if self.label.is_some() {
                Some(number)
            } else {
                None
            },
        }
    }

    fn label(&self) -> Option<&Text>
        ensures value { option_map (λ words. words.now) result ≡ self.now.label }
        ensures good { IfSome result (λ words. is_label words.now ≡ true) }
    {
        self.label.as_ref()
    }
}

impl Rule for TagRule {
    ghost use Rattle.pretag_map.specs.TagRules.{tag_line};

    ghost said = { tag_line };

    fn read(alloc: Global, line: &[u8]) -> Result<Result<TagRule, MapCause>, NoMemory> {
        match line_members(alloc, tag_keys(), line)? {
            Err(cause) => Ok(Err(cause)),
            Ok(members) => {
                let rule = tag_rule(alloc, &members)?;
                if rule.has_action() {
                    Ok(Ok(rule))
                } else {
                    Ok(Err(MapCause::NoAction))
                }
            }
        }
    }
}

/// Rules that tag records, at most 4,096, which contracts see as their list. The first that holds wins.
#[derive(Debug, Drop)]
pub struct TagMap {
    rules: List<TagRule>,
}

impl Model for TagMap {
    ghost use Rattle.std.specs.Prelude.{List as Sequence};
    ghost use Rattle.pretag_map.specs.TagRules.{TagRule};

    ghost Value = { Sequence TagRule };

    ghost use Rattle.std.specs.Prelude.{◌≤◌, length};

    ghost view = { λ map. map.rules };

    ghost invariant = { λ map. length map.rules ≤ 4096 };
}

/// The map of tags in a text of at most 1,048,576 octets, whose lines end as those of a configuration do. A line has
/// members `key=value` with spaces or tabs between them: conditions, which are `ip`, `src_net` and `dst_net` (an
/// address, or an address, a slash and a length) and `in`, `out`, `source_id`, `src_as` and `dst_as` (numbers), and at
/// least one of the actions `set_tag`, `set_tag2` and `set_label`. The fault is the first cause of the first line that
/// has one.
pub fn read_map(alloc: Global, text: &[u8]) -> Result<TagMap, MapFault>
    requires { length text.now ≤ 1048576 }
    ensures { RulesAre result (tag_map_of text.now) }
{
    Ok(TagMap {
        rules: read_rules(alloc, text)?,
    })
}

impl TagMap {
    /// No rule, which takes no memory.
    pub fn empty(alloc: Global) -> TagMap
        ensures { result ≡ [] }
    {
        TagMap {
            rules: List::new(alloc),
        }
    }

    /// Whether there is no rule, so that no record needs to be looked at.
    pub fn is_empty(&self) -> bool
        ensures exact { result ≡ (length self.now == 0) }
        ensures untagged { result ≡ true → (facts : TagFacts) → tags_of self.now facts ≡ no_tags }
    {
        self.rules.is_empty()
    }

    /// What the first rule gives of which all conditions hold, or 0, 0 and no label. Takes no memory.
    pub fn tag(&self, facts: &TagFacts) -> Tags
        ensures { result ≡ tags_of self.now facts.now }
    {
        match self.first(facts) {
            Some(place) => self.rules.as_slice()[place].tags(place as u32 + 1),
            None => Tags::none(),
        }
    }

    fn first(&self, facts: &TagFacts) -> Option<usize>
        ensures place { result ≡ position (holds facts.now) self.now }
        ensures within { IfSome result (λ place. place < length self.now) }
        ensures few { length self.now ≤ 4096 }
    {
        self.rules
            .as_slice()
            .iter()
            .position(|rule| rule.holds(facts))
    }

    /// The label of the rule with this number, counted from 1. It is one as `is_label` has it. Takes no memory.
    pub fn label(&self, rule: u32) -> Option<&Text>
        ensures value { option_map (λ words. words.now) result ≡ label_at self.now rule }
        ensures good { IfSome result (λ words. is_label words.now ≡ true) }
    {
        if rule == 0 {
            return None;
        }
        self.rules.as_slice().get(rule as usize - 1)?.label()
    }
}
