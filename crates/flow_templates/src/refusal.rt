ghost use Rattle.std.specs.Prelude.{◌≡◌};

use acct_types::NoMemory;

/// Why a datagram is refused.
#[derive(Clone, Copy, Debug, PartialEq, Eq)]
pub enum Cause {
    /// The header isn't whole.
    Short,
    /// The version isn't one that is read here.
    Version(u32),
    /// The count of version 5 is 0 or above 30.
    V5Count,
    /// The records that version 5 counts aren't whole.
    V5Cut,
    /// A set's length isn't that of a set, or passes the end.
    SetLength,
    /// A template's id is below 256.
    TemplateId,
    /// A template record passes its set's end.
    TemplateCut,
    /// A template has no field, or its records may have no octet.
    TemplateEmpty,
    /// A field that is read has a width that isn't allowed.
    FieldWidth,
    /// An options template has no scope field, or more than fields.
    ScopeCount,
    /// The length of an IPFIX message is below its header's, or above the octets there.
    IpfixLength,
    /// A record with a field of variable length passes its set's end.
    VarCut,
    /// The type of an address in sFlow is unknown.
    SflowAddress,
    /// An sFlow sample passes the end.
    SampleCut,
    /// An sFlow record passes its sample's end, or is shorter than its form.
    RecordCut,
}

/// Why a datagram isn't decoded.
#[derive(Clone, Copy, Debug, PartialEq, Eq)]
pub enum Undecodable {
    Refused(Cause),
    NoMemory,
}

impl From<NoMemory> for Undecodable {
    ghost use Rattle.flow_templates.specs.declared.refusal.Undecodable.TheVariants as undecodable;

    ghost from_gives = { λ _ answer. answer ≡ undecodable.NoMemory };

    fn from(_: NoMemory) -> Undecodable {
        Undecodable::NoMemory
    }
}
