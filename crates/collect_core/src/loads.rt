//! What plugins are to be given of records.

ghost use Rattle.std.specs.Prelude.{◌≡◌, ◌^◌, ◌<◌, ◌++◌, ℕ, All, length, map, option_map, option_and_then, true, IfOk, IfSome, OnOk};
ghost use Rattle.acct_types.specs.Counts.{IsBelow};
ghost use Rattle.pretag_map.specs.Labels.{is_label};
ghost use Rattle.pretag_map.specs.TagRules.{label_at};
ghost use Rattle.collect_core.specs.Course.{unrouted};
ghost use Rattle.collect_core.specs.Due.{entry_at, entry_of, tags_in, window_start};
ghost use Rattle.collect_core.specs.Loads.{load_entry, loads_for, loads_from};

use crate::Job;
use acct_types::{FlowRecord, Item, List, NoMemory, Text};
use config_keys::PluginConfig;
use pretag_map::{TagMap, Tags};
use primitive_keys::{facts, key_of};
use std::alloc::Global;

// Where a record stands: its datagram in the input and its place there, both from 1, and its moment in milliseconds.
#[derive(Clone, Copy)]
struct Standing {
    datagram: u64,
    row: u32,
    moment: u64,
}

// The first moment of the window that a moment lies in.
fn window_start(plugin: &PluginConfig, moment: u64) -> u64
    ensures { result ≡ window_start plugin.now.refresh moment }
{
    let length = 1000 * u64::from(plugin.refresh);
    moment / length * length
}

fn tags_in(job: &Job, flow: &FlowRecord) -> Tags
    ensures { (datagram : ℕ) → result ≡ tags_in job.now unrouted datagram flow.now }
{
    if job.tags.is_empty() {
        return Tags::none();
    }
    job.tags.tag(&facts(flow, job.as_from(), None, None))
}

// The label of the rule that tags name, if they name one.
fn label_of(map: &TagMap, rule: Option<u32>) -> Option<&Text>
    ensures value { option_map (λ words. words.now) result ≡ option_and_then (label_at map.now) rule }
    ensures good { IfSome result (λ words. is_label words.now ≡ true) }
{
    map.label(rule?)
}

// What a plugin is given of a record that has these tags.
fn item_of(
    alloc: Global,
    job: &Job,
    plugin: &PluginConfig,
    standing: Standing,
    flow: &FlowRecord,
    tags: &Tags,
) -> Result<Item, NoMemory>
    requires small { IsBelow (2 ^ 96) flow.now.counts }
    requires tags { tags.now ≡ tags_in job.now unrouted standing.datagram flow.now }
    ensures { IfOk result (λ item. entry_of item ≡ entry_at job.now unrouted plugin.now standing.datagram standing.moment standing.row flow.now) }
{
    let key = key_of(
        alloc,
        &plugin.primitives,
        flow,
        job.as_from(),
        None,
        None,
        tags,
        label_of(&job.tags, tags.label),
        window_start(plugin, standing.moment),
    )?;
    Ok(Item {
        datagram: standing.datagram,
        row: standing.row,
        moment: standing.moment,
        key,
        counts: flow.counts,
    })
}

// Appends the loads of a record, one for each plugin in their order.
fn append_loads(
    alloc: Global,
    job: &Job,
    standing: Standing,
    flow: &FlowRecord,
    loads: &mut List<(u32, Item)>,
) -> Result<(), NoMemory>
    requires small { IsBelow (2 ^ 96) flow.now.counts }
    ensures { OnOk result (map load_entry loads.new ≡ map load_entry loads.old
        ++ loads_for job.now unrouted 0 job.now.config.plugins standing.datagram standing.moment standing.row flow.now) }
{
    let tags = tags_in(job, flow);
    for (index, plugin) in job.config.plugins.as_slice().iter().enumerate() {
        let item = item_of(alloc, job, plugin, standing, flow, &tags)?;
        loads.push((index as u32, item))?;
    }
    Ok(())
}

/// The loads of records of a datagram, its first ones.
pub fn loads_of(
    alloc: Global,
    job: &Job,
    datagram: u64,
    moment: u64,
    rows: &[FlowRecord],
) -> Result<List<(u32, Item)>, NoMemory>
    requires few { length rows.now < 2 ^ 32 }
    requires small { All (λ flow. IsBelow (2 ^ 96) flow.counts) rows.now }
    ensures { IfOk result (λ loads. map load_entry loads ≡ loads_from job.now unrouted datagram moment 1 rows.now) }
{
    let room = rows.len().saturating_mul(job.config.plugins.len());
    let mut loads = List::from_vec(Vec::with_capacity(alloc, room)?);
    for (index, flow) in rows.iter().enumerate() {
        let standing = Standing {
            datagram,
            row: index as u32 + 1,
            moment,
        };
        append_loads(alloc, job, standing, flow, &mut loads)?;
    }
    Ok(loads)
}
