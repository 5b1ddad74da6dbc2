//! Fields of records, and where their octets stand (RFC 7011, 7).

ghost use Rattle.std.specs.Prelude.{◌≡◌, ◌<◌, ◌≤◌, ◌+◌, length, nat_lt, true, MatchOption};
ghost use Rattle.flow_sets.specs.Fields.{end_of, end_of_all, is_read, is_variable, span_of};

use acct_types::numbers::u16_at;
use flow_templates::FieldSpec;

/// Where the octets of a field's content stand in its record.
#[derive(Clone, Copy, Debug, PartialEq, Eq)]
pub(crate) struct Span {
    pub(crate) place: u16,
    pub(crate) width: u16,
}

pub(crate) fn is_read(version: u16, element: u16) -> bool
    ensures { result ≡ is_read version element }
{
    match element {
        85 | 86 | 302 | 305 | 306 => version == 10,
        1
        | 2
        | 4
        | 5
        | 7
        | 8
        | 9
        | 10
        | 11
        | 12
        | 13
        | 14
        | 16
        | 17
        | 18
        | 23
        | 24
        | 27
        | 28
        | 29
        | 30
        | 34
        | 48
        | 50
        | 56
        | 58
        | 63
        | 80 => true,
        _ => false,
    }
}

pub(crate) fn is_variable(version: u16, field: &FieldSpec) -> bool
    ensures { result ≡ is_variable version field.now }
{
    version == 10 && field.width == 65535
}

// The octets from a place on, None exactly where they pass the end.
fn span_within(octets: &[u8], place: usize, width: u16) -> Option<Span>
    requires { place ≤ 65535 }
    ensures { MatchOption result (length octets.now < place + width)
        (λ span. (span ≡ record { place = place; width = width }) × (place + width ≤ length octets.now)) }
{
    if octets.len() < place + usize::from(width) {
        return None;
    }
    Some(Span {
        place: place as u16,
        width,
    })
}

// The content of a field that begins at a place, None exactly where the field passes the end.
pub(crate) fn span_of(version: u16, field: &FieldSpec, octets: &[u8], place: usize) -> Option<Span>
    requires fits { length octets.now ≤ 65535 }
    requires within { place ≤ length octets.now }
    ensures { MatchOption result (length octets.now < end_of version field.now octets.now place)
        (λ span. (span ≡ span_of version field.now octets.now place) × (end_of version field.now octets.now place ≤ length octets.now)) }
{
    if !is_variable(version, field) {
        return span_within(octets, place, field.width);
    }
    if octets.len() < place + 1 {
        return None;
    }
    let length = octets[place];
    if length < 255 {
        return span_within(octets, place + 1, u16::from(length));
    }
    if octets.len() < place + 3 {
        return None;
    }
    span_within(octets, place + 3, u16_at(octets, place + 1))
}

// Where fields end, of which the first begins at a place, None exactly where one passes the end.
pub(crate) fn end_of_all(
    version: u16,
    fields: &[FieldSpec],
    octets: &[u8],
    place: usize,
) -> Option<usize>
    requires fits { length octets.now ≤ 65535 }
    requires within { place ≤ length octets.now }
    ensures { MatchOption result (length octets.now < end_of_all version fields.now octets.now place)
        (λ end. (end ≡ end_of_all version fields.now octets.now place) × (end ≤ length octets.now)) }
{
    let mut end = place;
    for field in fields {
        let Some(span) = span_of(version, field, octets, end) else {
            return None;
        };
        end = usize::from(span.place) + usize::from(span.width);
    }
    Some(end)
}
