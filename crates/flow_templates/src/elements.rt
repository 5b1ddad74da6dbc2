//! The elements that are read, with the widths that each may have (IANA's registry of IPFIX information elements).

ghost use Rattle.std.specs.Prelude.{◌≡◌};
ghost use Rattle.flow_templates.specs.Elements.{is_allowed, is_width};

use crate::FieldSpec;

fn is_width(version: u16, element: u16, width: u16) -> bool
    ensures { result ≡ is_width version element width }
{
    match element {
        1
        | 2
        | 4
        | 5
        | 7
        | 9
        | 10
        | 11
        | 13
        | 14
        | 16
        | 17
        | 23
        | 24
        | 29
        | 30
        | 34
        | 48
        | 50
        | 58 => { width >= 1 && width <= 8 }
        85 | 86 | 302 | 305 | 306 => version != 10 || (width >= 1 && width <= 8),
        8 | 12 | 18 => width == 4,
        27 | 28 | 63 => width == 16,
        56 | 80 => width == 6,
        _ => true,
    }
}

/// A field has a width that its element may have. The element of an enterprise isn't read.
pub(crate) fn is_allowed(version: u16, field: &FieldSpec) -> bool
    ensures { result ≡ is_allowed version field.now }
{
    field.enterprise.is_some() || is_width(version, field.element, field.width)
}
