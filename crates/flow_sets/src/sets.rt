//! The sets of a datagram, one behind another (RFC 3954, 5.1, and RFC 7011, 3.3).

ghost use Rattle.std.specs.Prelude.{◌≡◌, ◌≤◌, ◌+◌, ◌-◌, ◌^◌, ◌⊎◌, All, Err, length, take, drop, IfOk, OnOk};
ghost use Rattle.acct_types.specs.Counts.{IsBelow};
ghost use Rattle.flow_templates.specs.Changes.{nothing_staged};
ghost use Rattle.flow_templates.specs.declared.refusal.Undecodable.TheVariants as undecodable;
ghost use Rattle.flow_templates.specs.Decoding.{Gives};
ghost use Rattle.flow_templates.specs.Keys.{key_of};
ghost use Rattle.flow_templates.specs.Known.{known_after, known_in};
ghost use Rattle.flow_sets.specs.Saying.{Adds, so_far};
ghost use Rattle.flow_sets.specs.Sets.{AcceptsSome, data_by, options_set, set_said, sets_said, template_set};

use crate::data::{learn_all, read_lessons, read_rows};
use crate::templates::read_templates;
use acct_types::List;
use acct_types::numbers::{after, u16_at};
use flow_templates::{Cause, Domain, Notice, NoticeCause, RawDecoded, Staged, Stores, Undecodable};
use std::alloc::Global;

fn template_set(version: u16) -> u16
    ensures { result ≡ template_set version }
{
    if version == 9 { 0 } else { 2 }
}

fn options_set(version: u16) -> u16
    ensures { result ≡ options_set version }
{
    if version == 9 { 1 } else { 3 }
}

// A data set by the template that is known for it.
fn read_data(
    alloc: Global,
    stores: &Stores,
    staged: &mut Staged,
    domain: &Domain,
    number: u32,
    id: u16,
    octets: &[u8],
    decoded: &mut RawDecoded,
) -> Result<(), Undecodable>
    requires fits { length octets.now ≤ 65535 }
    requires counts { All (λ row. IsBelow (2 ^ 64) row.flow.counts) decoded.old.rows }
    ensures answer { Adds result (so_far decoded.old staged.old) (so_far decoded.new staged.new)
        (data_by domain.now (known_after (known_in stores.now) staged.old) number id octets.now
        ((known_after (known_in stores.now) staged.old).template (key_of domain.now id))) }
    ensures few { OnOk result (length decoded.new.rows ≤ length decoded.old.rows + length octets.now) }
    ensures counts { OnOk result (All (λ row. IsBelow (2 ^ 64) row.flow.counts) decoded.new.rows) }
{
    let Some(template) = staged.find(stores, domain, id) else {
        decoded.notices.push(Notice {
            set: number,
            cause: NoticeCause::NoTemplate(id),
        })?;
        return Ok(());
    };
    if !template.options {
        return read_rows(stores, staged, domain, template, octets, decoded);
    }
    let lessons = match read_lessons(alloc, domain, template, octets) {
        Ok(lessons) => lessons,
        Err(undecodable) => return Err(undecodable),
    };
    learn_all(staged, lessons.as_slice())?;
    Ok(())
}

// The content of a set with this number and id.
#[tactic(auto, unfolding(crate::specs::Sets::set_said))]
fn read_set(
    alloc: Global,
    stores: &Stores,
    staged: &mut Staged,
    domain: &Domain,
    number: u32,
    id: u16,
    octets: &[u8],
    decoded: &mut RawDecoded,
) -> Result<(), Undecodable>
    requires version { (domain.now.version ≡ 9) ⊎ (domain.now.version ≡ 10) }
    requires fits { length octets.now ≤ 65535 }
    requires counts { All (λ row. IsBelow (2 ^ 64) row.flow.counts) decoded.old.rows }
    ensures answer { Adds result (so_far decoded.old staged.old) (so_far decoded.new staged.new)
        (set_said domain.now (known_after (known_in stores.now) staged.old) number id octets.now) }
    ensures few { OnOk result (length decoded.new.rows ≤ length decoded.old.rows + length octets.now) }
    ensures counts { OnOk result (All (λ row. IsBelow (2 ^ 64) row.flow.counts) decoded.new.rows) }
{
    if id == template_set(domain.version) {
        return read_templates(alloc, staged, domain, false, octets);
    }
    if id == options_set(domain.version) {
        return read_templates(alloc, staged, domain, true, octets);
    }
    if id < 256 {
        decoded.notices.push(Notice {
            set: number,
            cause: NoticeCause::ReservedSet(id),
        })?;
        return Ok(());
    }
    read_data(alloc, stores, staged, domain, number, id, octets, decoded)
}

fn between(octets: &[u8], from: usize, to: usize) -> &[u8]
    requires order { from ≤ to }
    requires within { to ≤ length octets.now }
    ensures content { result.now ≡ take (to - from) (drop from octets.now) }
    ensures length { length result.now ≡ to - from }
{
    &octets[from..to]
}

/// The records and the notices of the sets of a datagram of NetFlow version 9 (RFC 3954, 5) or IPFIX (RFC 7011, 3), which
/// stand behind its header up to its end, each in reading order. Templates and sampling rates that the sets teach are staged
/// and hold for the sets that follow. A set whose length is below 4 or passes the end is SetLength; template records have the
/// causes of `read_template` and `read_options_template`; a record that passes its set's end by a field of variable width is
/// VarCut. The first of these in reading order refuses the datagram. A data set without a template and a set with a reserved
/// id are passed over with a notice, which has the set's number from 1. Memory is wanted only at a set that isn't refused, behind
/// sets of which none is.
pub fn read_sets(
    alloc: Global,
    stores: &Stores,
    staged: &mut Staged,
    domain: &Domain,
    octets: &[u8],
) -> Result<RawDecoded, Undecodable>
    requires version { (domain.now.version ≡ 9) ⊎ (domain.now.version ≡ 10) }
    requires unstaged { staged.old ≡ nothing_staged }
    requires fits { length octets.now ≤ 65535 }
    ensures answer { Gives result staged.new (sets_said domain.now (known_in stores.now) octets.now) }
    ensures memory { result ≡ Err undecodable.NoMemory → AcceptsSome domain.now (known_in stores.now) octets.now }
    ensures few { IfOk result (λ decoded. length decoded.rows ≤ length octets.now) }
    ensures counts { IfOk result (λ decoded. All (λ row. IsBelow (2 ^ 64) row.flow.counts) decoded.rows) }
{
    let mut decoded = RawDecoded {
        rows: List::new(alloc),
        notices: List::new(alloc),
    };
    let mut number = 1u32;
    let mut rest = octets;
    while !rest.is_empty() {
        if rest.len() < 4 {
            return Err(Undecodable::Refused(Cause::SetLength));
        }
        let length = usize::from(u16_at(rest, 2));
        if length < 4 || rest.len() < length {
            return Err(Undecodable::Refused(Cause::SetLength));
        }
        let content = between(rest, 4, length);
        let id = u16_at(rest, 0);
        match read_set(
            alloc,
            stores,
            staged,
            domain,
            number,
            id,
            content,
            &mut decoded,
        ) {
            Ok(()) => {}
            Err(undecodable) => return Err(undecodable),
        }
        number += 1;
        rest = after(rest, length);
    }
    Ok(decoded)
}
