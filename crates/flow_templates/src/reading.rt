//! Template records of NetFlow version 9 (RFC 3954, 5.2 and 6.1) and of IPFIX (RFC 7011, 3.4 and 8.1).

ghost use Rattle.std.specs.Prelude.{◌≡◌, ◌≢◌, ◌==◌, ◌&&◌, ◌||◌, ◌≤◌, ◌<◌, ◌⊎◌, ◌*◌, length, nat_lt, is_some, IfOk, IfSome, IsOk, None, Err, true, false};
ghost use Rattle.std.specs.List.{list_all};
ghost use Rattle.flow_templates.specs.Elements.{is_allowed};
ghost use Rattle.flow_templates.specs.Templates.{all_of_kind, definition_record, field_count, field_length, field_of, fields_length, fields_of, has_enterprise, has_faulty_scope, has_no_field, has_whole_fields, head_length, is_withdrawal, judged_fields, least_length, length_or_fault, scope_count, what_of, DefinesAccepted, Reads, template_record};

use crate::elements::is_allowed;
use crate::template::least_width;
use crate::{FieldSpec, Template, TemplateFault, TemplateTurn, TemplateWhat};
use acct_types::numbers::{after, u16_at, u32_at};
use acct_types::{List, NoMemory};
use std::alloc::Global;

// The bit of an element that an enterprise defined.
const ENTERPRISE: u16 = 32768;

fn has_enterprise(version: u16, octets: &[u8]) -> bool
    requires { 2 ≤ length octets.now }
    ensures { result ≡ has_enterprise version octets.now }
{
    version == 10 && u16_at(octets, 0) >= ENTERPRISE
}

fn field_length(version: u16, octets: &[u8]) -> u8
    requires { 2 ≤ length octets.now }
    ensures { result ≡ field_length version octets.now }
{
    if has_enterprise(version, octets) {
        8
    } else {
        4
    }
}

// The field at the front.
#[tactic(auto, using(crate::proofs::FieldLemmas::least_field))]
fn read_field(version: u16, octets: &[u8]) -> FieldSpec
    requires { field_length version octets.now ≤ length octets.now }
    ensures { result ≡ field_of version octets.now }
{
    let element = u16_at(octets, 0);
    let width = u16_at(octets, 2);
    if has_enterprise(version, octets) {
        FieldSpec {
            enterprise: Some(u32_at(octets, 4)),
            element: element - ENTERPRISE,
            width,
        }
    } else {
        FieldSpec {
            enterprise: None,
            element,
            width,
        }
    }
}

// The octets of that many fields, None where they pass the end.
fn fields_length(version: u16, count: u16, octets: &[u8]) -> Option<u32>
    ensures length { IfSome result (λ used. used ≡ fields_length version count octets.now) }
    ensures few { IfSome result (λ used. used ≤ 8 * count) }
    ensures within { IfSome result (λ used. used ≤ length octets.now) }
    ensures passes { result ≡ None → length octets.now < fields_length version count octets.now }
{
    let mut used = 0u32;
    let mut rest = octets;
    for _ in 0..count {
        if rest.len() < 4 {
            return None;
        }
        let field = field_length(version, rest);
        if rest.len() < usize::from(field) {
            return None;
        }
        used += u32::from(field);
        rest = after(rest, usize::from(field));
    }
    Some(used)
}

fn read_fields(
    alloc: Global,
    version: u16,
    count: u16,
    octets: &[u8],
) -> Result<List<FieldSpec>, NoMemory>
    requires { fields_length version count octets.now ≤ length octets.now }
    ensures fields { IfOk result (λ fields. fields ≡ fields_of version count octets.now) }
    ensures count { IfOk result (λ fields. length fields ≡ count) }
{
    let mut fields = Vec::with_capacity(alloc, usize::from(count))?;
    let mut rest = octets;
    for _ in 0..count {
        fields.push(read_field(version, rest))?;
        rest = after(rest, usize::from(field_length(version, rest)));
    }
    Ok(List::from_vec(fields))
}

// In version 9 the fields of the scope are skipped by their place.
fn is_passed(version: u16, scope: u16, index: u16, field: &FieldSpec) -> bool
    ensures { result ≡ (version == 9 && nat_lt index scope || is_allowed version field.now) }
{
    version == 9 && index < scope || is_allowed(version, field)
}

// The fewest octets of a record with so many fields, of which some are the scope: None where a width isn't allowed.
fn judge_fields(version: u16, scope: u16, count: u16, octets: &[u8]) -> Option<u32>
    requires { fields_length version count octets.now ≤ length octets.now }
    ensures widths { list_all (is_allowed version) (judged_fields version scope (fields_of version count octets.now)) ≡ is_some result }
    ensures least { IfSome result (λ least. least ≡ least_length version (fields_of version count octets.now)) }
{
    let mut least = 0u32;
    let mut rest = octets;
    for index in 0..count {
        let field = read_field(version, rest);
        if !is_passed(version, scope, index, &field) {
            return None;
        }
        least += u32::from(least_width(version, &field));
        rest = after(rest, usize::from(field_length(version, rest)));
    }
    Some(least)
}

fn is_withdrawal(version: u16, octets: &[u8]) -> bool
    requires { 4 ≤ length octets.now }
    ensures { result ≡ is_withdrawal version octets.now }
{
    version == 10 && u16_at(octets, 2) == 0
}

fn all_of_kind(options: bool) -> u16
    ensures { result ≡ all_of_kind options }
{
    if options { 3 } else { 2 }
}

fn head_length(options: bool) -> u8
    ensures { result ≡ head_length options }
{
    if options { 6 } else { 4 }
}

fn has_no_field(version: u16, options: bool, octets: &[u8]) -> bool
    requires { head_length options ≤ length octets.now }
    ensures { result ≡ has_no_field version options octets.now }
{
    version == 9 && u16_at(octets, 2) == 0 && (!options || u16_at(octets, 4) == 0)
}

fn has_faulty_scope(version: u16, options: bool, octets: &[u8]) -> bool
    requires { head_length options ≤ length octets.now }
    ensures { result ≡ has_faulty_scope version options octets.now }
{
    version == 10 && options && (u16_at(octets, 4) == 0 || u16_at(octets, 2) < u16_at(octets, 4))
}

fn has_whole_fields(version: u16, options: bool, octets: &[u8]) -> bool
    requires { head_length options ≤ length octets.now }
    ensures { result ≡ has_whole_fields version options octets.now }
{
    !(version == 9 && options) || u16_at(octets, 2) % 4 == 0 && u16_at(octets, 4) % 4 == 0
}

fn scope_count(version: u16, options: bool, octets: &[u8]) -> u16
    requires { head_length options ≤ length octets.now }
    ensures { result ≡ scope_count version options octets.now }
{
    if !options {
        0
    } else if version == 9 {
        u16_at(octets, 2) / 4
    } else {
        u16_at(octets, 4)
    }
}

fn field_count(version: u16, options: bool, octets: &[u8]) -> u16
    requires { head_length options ≤ length octets.now }
    ensures { result ≡ field_count version options octets.now }
{
    if version == 9 && options {
        u16_at(octets, 2) / 4 + u16_at(octets, 4) / 4
    } else {
        u16_at(octets, 2)
    }
}

// The octets of a record of either kind that defines a template, and whose head is whole, or its first fault.
#[tactic(auto, unfolding(crate::specs::Templates::definition_record))]
fn judge_definition(version: u16, options: bool, octets: &[u8]) -> Result<u32, TemplateFault>
    requires { head_length options ≤ length octets.now }
    ensures judged { result ≡ length_or_fault (definition_record version options octets.now) }
    ensures no_memory { result ≢ Err TemplateFault.NoMemory }
{
    if has_no_field(version, options, octets) {
        return Err(TemplateFault::TemplateEmpty);
    }
    if has_faulty_scope(version, options, octets) {
        return Err(TemplateFault::ScopeCount);
    }
    if !has_whole_fields(version, options, octets) {
        return Err(TemplateFault::TemplateCut);
    }
    let count = field_count(version, options, octets);
    let head = head_length(options);
    let rest = after(octets, usize::from(head));
    let Some(used) = fields_length(version, count, rest) else {
        return Err(TemplateFault::TemplateCut);
    };
    let scope = scope_count(version, options, octets);
    let Some(least) = judge_fields(version, scope, count, rest) else {
        return Err(TemplateFault::FieldWidth);
    };
    if least == 0 {
        return Err(TemplateFault::TemplateEmpty);
    }
    Ok(u32::from(head) + used)
}

// The octets of a record of either kind, or its first fault.
#[tactic(auto, unfolding(crate::specs::Templates::template_record))]
fn judge_record(version: u16, options: bool, octets: &[u8]) -> Result<u32, TemplateFault>
    ensures judged { result ≡ length_or_fault (template_record version options octets.now) }
    ensures no_memory { result ≢ Err TemplateFault.NoMemory }
{
    if octets.len() < 4 {
        return Err(TemplateFault::TemplateCut);
    }
    let id = u16_at(octets, 0);
    let withdraws = is_withdrawal(version, octets);
    if withdraws && id == all_of_kind(options) {
        return Ok(4);
    }
    if id < 256 {
        return Err(TemplateFault::TemplateId);
    }
    if withdraws {
        return Ok(4);
    }
    if octets.len() < usize::from(head_length(options)) {
        return Err(TemplateFault::TemplateCut);
    }
    judge_definition(version, options, octets)
}

// What a record of either kind says that has no fault.
fn read_what(
    alloc: Global,
    version: u16,
    options: bool,
    octets: &[u8],
) -> Result<TemplateWhat, NoMemory>
    requires { IsOk (template_record version options octets.now) }
    ensures { IfOk result (λ what. what ≡ what_of version options octets.now) }
{
    if is_withdrawal(version, octets) {
        return Ok(if u16_at(octets, 0) == all_of_kind(options) {
            TemplateWhat::AllWithdrawn
        } else {
            TemplateWhat::Withdrawn
        });
    }
    let count = field_count(version, options, octets);
    let rest = after(octets, usize::from(head_length(options)));
    let fields = read_fields(alloc, version, count, rest)?;
    Ok(TemplateWhat::Defined(Template {
        options,
        scope_fields: scope_count(version, options, octets),
        fields,
    }))
}

// A record of either kind: memory is wanted only for one without a fault.
fn read_record(
    alloc: Global,
    version: u16,
    options: bool,
    octets: &[u8],
) -> Result<TemplateTurn, TemplateFault>
    requires { (version ≡ 9) ⊎ (version ≡ 10) }
    ensures answer { Reads result (template_record version options octets.now) }
    ensures accepted { IfOk result (λ turn. DefinesAccepted version turn.what) }
    ensures least { IfOk result (λ turn. 4 ≤ turn.used) }
    ensures within { IfOk result (λ turn. turn.used ≤ length octets.now) }
{
    let used = match judge_record(version, options, octets) {
        Ok(used) => used,
        Err(fault) => return Err(fault),
    };
    let id = u16_at(octets, 0);
    let Ok(what) = read_what(alloc, version, options, octets) else {
        return Err(TemplateFault::NoMemory);
    };
    Ok(TemplateTurn { id, used, what })
}

/// The template record at the front of the octets of a set. Below four octets it is TemplateCut. Then, in this order: in
/// IPFIX id 2 without fields withdraws all templates but the options ones; an id below 256 is TemplateId; in IPFIX no field
/// withdraws the id, and in version 9 it is TemplateEmpty; a record that passes the end is TemplateCut; a width that isn't
/// allowed is FieldWidth; and records that may have no octet are TemplateEmpty. Memory is wanted only for a record without a
/// fault.
pub fn read_template(
    alloc: Global,
    version: u16,
    octets: &[u8],
) -> Result<TemplateTurn, TemplateFault>
    requires { (version ≡ 9) ⊎ (version ≡ 10) }
    ensures answer { Reads result (template_record version false octets.now) }
    ensures accepted { IfOk result (λ turn. DefinesAccepted version turn.what) }
    ensures least { IfOk result (λ turn. 4 ≤ turn.used) }
    ensures within { IfOk result (λ turn. turn.used ≤ length octets.now) }
{
    read_record(alloc, version, false, octets)
}

/// The options template record at the front of the octets of a set, judged as `read_template` does, but that id 3 stands for
/// all options templates. In IPFIX a scope of no field, or of more than there are, is ScopeCount. In version 9 lengths that
/// aren't multiples of four are TemplateCut.
pub fn read_options_template(
    alloc: Global,
    version: u16,
    octets: &[u8],
) -> Result<TemplateTurn, TemplateFault>
    requires { (version ≡ 9) ⊎ (version ≡ 10) }
    ensures answer { Reads result (template_record version true octets.now) }
    ensures accepted { IfOk result (λ turn. DefinesAccepted version turn.what) }
    ensures least { IfOk result (λ turn. 4 ≤ turn.used) }
    ensures within { IfOk result (λ turn. turn.used ≤ length octets.now) }
{
    read_record(alloc, version, true, octets)
}

/// The octets of the template record at the front of the octets of a set, of an options template or of another, or its first
/// fault, as they are read. It takes no memory.
pub fn judge_template(version: u16, options: bool, octets: &[u8]) -> Result<u32, TemplateFault>
    ensures judged { result ≡ length_or_fault (template_record version options octets.now) }
    ensures no_memory { result ≢ Err TemplateFault.NoMemory }
    ensures least { IfOk result (λ used. 4 ≤ used) }
    ensures within { IfOk result (λ used. used ≤ length octets.now) }
{
    judge_record(version, options, octets)
}
