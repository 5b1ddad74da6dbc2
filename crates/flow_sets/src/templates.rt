//! Template sets (RFC 3954, 5.2 and 6.1, and RFC 7011, 3.4.1 and 3.4.2).

ghost use Rattle.std.specs.Prelude.{◌≡◌, ◌⊎◌, ◌≤◌, length, IfOk, OnOk};
ghost use Rattle.flow_templates.specs.Changes.{and_change};
ghost use Rattle.flow_templates.specs.Templates.{DefinesAccepted, Reads, template_record};
ghost use Rattle.flow_templates.specs.Decoding.{FailsAs};
ghost use Rattle.flow_sets.specs.Saying.{Adds, so_far};
ghost use Rattle.flow_sets.specs.Sets.{Refuses, change_of, templates_said};

use acct_types::NoMemory;
use acct_types::numbers::after;
use flow_templates::{
    Cause, Domain, Staged, TemplateFault, TemplateTurn, TemplateWhat, Undecodable, judge_template,
    read_options_template, read_template,
};
use std::alloc::Global;

fn refused(fault: TemplateFault) -> Undecodable
    ensures { Refuses result fault }
{
    match fault {
        TemplateFault::TemplateId => Undecodable::Refused(Cause::TemplateId),
        TemplateFault::TemplateCut => Undecodable::Refused(Cause::TemplateCut),
        TemplateFault::TemplateEmpty => Undecodable::Refused(Cause::TemplateEmpty),
        TemplateFault::FieldWidth => Undecodable::Refused(Cause::FieldWidth),
        TemplateFault::ScopeCount => Undecodable::Refused(Cause::ScopeCount),
        TemplateFault::NoMemory => Undecodable::NoMemory,
    }
}

// Why a template set isn't staged: the first fault of its records, or where none has a fault, that memory is wanted.
fn failure_of(domain: &Domain, options: bool, octets: &[u8]) -> Undecodable
    ensures { FailsAs result (templates_said domain.now options octets.now) }
{
    let mut rest = octets;
    while rest.len() >= 4 {
        let used = match judge_template(domain.version, options, rest) {
            Ok(used) => used,
            Err(fault) => return refused(fault),
        };
        rest = after(rest, used as usize);
    }
    Undecodable::NoMemory
}

// Notes what a template record changes.
fn stage(
    staged: &mut Staged,
    domain: &Domain,
    options: bool,
    turn: TemplateTurn,
) -> Result<(), NoMemory>
    requires { DefinesAccepted domain.now.version turn.what }
    ensures { OnOk result (staged.new ≡ and_change staged.old (change_of domain.now options turn)) }
{
    let id = turn.id;
    match turn.what {
        TemplateWhat::Defined(template) => staged.put(domain, id, template),
        TemplateWhat::Withdrawn => staged.withdraw(domain, id),
        TemplateWhat::AllWithdrawn => staged.withdraw_all(domain, options),
    }
}

// The record at the front of the octets of a set.
fn read_turn(
    alloc: Global,
    version: u16,
    options: bool,
    octets: &[u8],
) -> Result<TemplateTurn, TemplateFault>
    requires { (version ≡ 9) ⊎ (version ≡ 10) }
    ensures answer { Reads result (template_record version options octets.now) }
    ensures accepted { IfOk result (λ turn. DefinesAccepted version turn.what) }
    ensures least { IfOk result (λ turn. 4 ≤ turn.used) }
    ensures within { IfOk result (λ turn. turn.used ≤ length octets.now) }
{
    if options {
        read_options_template(alloc, version, octets)
    } else {
        read_template(alloc, version, octets)
    }
}

/// Stages the changes of the records of a template set.
pub(crate) fn read_templates(
    alloc: Global,
    staged: &mut Staged,
    domain: &Domain,
    options: bool,
    octets: &[u8],
) -> Result<(), Undecodable>
    requires { (domain.now.version ≡ 9) ⊎ (domain.now.version ≡ 10) }
    ensures { (decoded : _) → Adds result (so_far decoded staged.old) (so_far decoded staged.new) (templates_said domain.now options octets.now) }
{
    let mut rest = octets;
    while rest.len() >= 4 {
        let turn = match read_turn(alloc, domain.version, options, rest) {
            Ok(turn) => turn,
            Err(_) => return Err(failure_of(domain, options, octets)),
        };
        let used = turn.used as usize;
        let Ok(()) = stage(staged, domain, options, turn) else {
            return Err(failure_of(domain, options, octets));
        };
        rest = after(rest, used);
    }
    Ok(())
}
