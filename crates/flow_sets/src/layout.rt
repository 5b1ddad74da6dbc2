//! Where the elements stand in the records of a template. A table has a slot for each element that is read, so that a template
//! is walked once for all of them.

ghost use Rattle.std.specs.Prelude.{◌≡◌, ◌<◌, ◌≤◌, if◌then◌else◌, length, true, IfSome, MatchOption, Some, None};
ghost use Rattle.std.specs.Option.{option_or};
ghost use Rattle.flow_templates.specs.Templates.{is_accepted, least_length};
ghost use Rattle.flow_sets.specs.Fields.{end_of_all, has_element, is_known, is_read, is_variable, record_length, skipped, span_in};
ghost use Rattle.flow_sets.specs.Layout.{IsLayout, LaysOut, Serves, is_fixed, listed, slot};

use crate::fields::{Span, end_of_all, is_read, is_variable, span_of};
use flow_templates::{FieldSpec, Template};

/// The least modulus under which no two elements that are read have the same remainder.
pub(crate) const SLOTS: usize = 65;

pub(crate) type Spans = [Option<Span>; SLOTS];

fn slot_of(element: u16) -> usize
    ensures slot { result ≡ slot element }
    ensures within { result < 65 }
{
    usize::from(element) % SLOTS
}

/// Where an element stands that is read.
pub(crate) fn listed(spans: &Spans, element: u16) -> Option<Span>
    requires { is_read 10 element ≡ true }
    ensures { result ≡ listed spans.now element }
{
    spans[slot_of(element)]
}

fn is_known(version: u16, field: &FieldSpec) -> bool
    ensures { result ≡ is_known version field.now }
{
    field.enterprise.is_none() && is_read(version, field.element)
}

/// Where the elements stand in a record, and how many octets it has: 0 before any was laid out.
#[derive(Drop)]
pub(crate) struct Layout {
    pub(crate) spans: Spans,
    pub(crate) used: usize,
}

// Notes where a field stands, if its element isn't noted yet.
fn note(version: u16, field: &FieldSpec, span: Span, spans: &mut Spans)
    ensures { (element : _) → listed spans.new element
        ≡ option_or (listed spans.old element) (if has_element version element field.now then Some span else None) }
{
    if !is_known(version, field) {
        return;
    }
    let slot = slot_of(field.element);
    let noted = spans[slot];
    let None = noted else {
        return;
    };
    spans[slot] = Some(span);
}

// Notes fields one behind another, of which the first begins at a place, and gives where they end: None exactly where one
// passes the end.
fn note_all(
    version: u16,
    fields: &[FieldSpec],
    octets: &[u8],
    place: usize,
    spans: &mut Spans,
) -> Option<usize>
    requires fits { length octets.now ≤ 65535 }
    requires within { place ≤ length octets.now }
    ensures end { MatchOption result (length octets.now < end_of_all version fields.now octets.now place)
        (λ end. (end ≡ end_of_all version fields.now octets.now place) × (end ≤ length octets.now)) }
    ensures noted { IfSome result (λ end. (element : _) → listed spans.new element
        ≡ option_or (listed spans.old element) (span_in version element fields.now octets.now place)) }
{
    let mut end = place;
    for field in fields {
        let Some(span) = span_of(version, field, octets, end) else {
            return None;
        };
        end = usize::from(span.place) + usize::from(span.width);
        note(version, field, span, spans);
    }
    Some(end)
}

// How many fields are skipped by their place.
fn skipped(version: u16, template: &Template) -> usize
    requires { is_accepted version template.now ≡ true }
    ensures skipped { result ≡ skipped version template.now }
    ensures few { result ≤ length template.now.fields }
{
    if version == 9 {
        usize::from(template.scope_fields)
    } else {
        0
    }
}

// Lays out the record at the front of the octets in a table, and gives its length: None exactly where it passes the end.
fn lay_out(version: u16, template: &Template, octets: &[u8], spans: &mut Spans) -> Option<usize>
    requires fits { length octets.now ≤ 65535 }
    requires accepted { is_accepted version template.now ≡ true }
    ensures length { MatchOption result (length octets.now < record_length version template.now octets.now)
        (λ used. (used ≡ record_length version template.now octets.now) × (used ≤ length octets.now)) }
    ensures spans { IfSome result (λ used. LaysOut version template.now octets.now spans.new) }
{
    *spans = [None; SLOTS];
    let (scope, others) = template
        .fields
        .as_slice()
        .split_at(skipped(version, template));
    let Some(begin) = end_of_all(version, scope, octets, 0) else {
        return None;
    };
    note_all(version, others, octets, begin, spans)
}

/// Whether all records of a template have one layout.
pub(crate) fn is_fixed(version: u16, template: &Template) -> bool
    ensures { result ≡ is_fixed version template.now }
{
    template
        .fields
        .as_slice()
        .iter()
        .all(|field| !is_variable(version, field))
}

impl Layout {
    /// Nothing is laid out.
    pub(crate) fn new() -> Layout
        ensures { result.used ≡ 0 }
    {
        Layout {
            spans: [None; SLOTS],
            used: 0,
        }
    }

    /// Lays out the record at the front, unless the layout serves for it already: None exactly where it passes the end.
    pub(crate) fn renew(
        &mut self,
        version: u16,
        template: &Template,
        fixed: bool,
        octets: &[u8],
    ) -> Option<()>
        requires fits { length octets.now ≤ 65535 }
        requires accepted { is_accepted version template.now ≡ true }
        requires least { least_length version template.now.fields ≤ length octets.now }
        requires fixed { fixed ≡ is_fixed version template.now }
        requires serves { Serves version template.now fixed self.old }
        ensures answer { MatchOption result (length octets.now < record_length version template.now octets.now) (λ done. IsLayout version template.now octets.now self.new) }
        ensures serves { IfSome result (λ done. Serves version template.now fixed self.new) }
    {
        if fixed && self.used > 0 {
            return Some(());
        }
        let Some(used) = lay_out(version, template, octets, &mut self.spans) else {
            return None;
        };
        self.used = used;
        Some(())
    }
}
