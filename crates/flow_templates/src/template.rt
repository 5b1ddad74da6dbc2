ghost use Rattle.std.specs.Prelude.{◌≡◌, ◌≤◌, length};
ghost use Rattle.flow_templates.specs.Keys.{key_of};
ghost use Rattle.flow_templates.specs.Templates.{least_length, least_width};

use acct_types::{Addr, List, NoMemory};

/// Where the ids of templates are apart: an exporter, its version of NetFlow (10 for IPFIX), and its source id (RFC 3954, 5.1)
/// or observation domain (RFC 7011, 3.1).
#[derive(Clone, Copy, Debug, PartialEq, Eq, Hash)]
pub struct Domain {
    pub exporter: Addr,
    pub version: u16,
    pub id: u32,
}

/// What a template is found by.
#[derive(Clone, Copy, Debug, PartialEq, Eq, Hash)]
pub struct TemplateKey {
    pub domain: Domain,
    pub id: u16,
}

impl TemplateKey {
    pub fn new(domain: &Domain, id: u16) -> TemplateKey
        ensures { result ≡ key_of domain.now id }
    {
        TemplateKey {
            domain: *domain,
            id,
        }
    }
}

/// A field of a template: its element, which an enterprise may have defined, and its width in octets.
#[derive(Clone, Copy, Debug, PartialEq, Eq)]
pub struct FieldSpec {
    pub enterprise: Option<u32>,
    pub element: u16,
    pub width: u16,
}

/// How the records of a data set are laid out. The first fields of an options template are its scope.
#[derive(Debug, PartialEq, Eq, Drop)]
pub struct Template {
    pub options: bool,
    pub scope_fields: u16,
    pub fields: List<FieldSpec>,
}

/// Why a template record is refused.
#[derive(Clone, Copy, Debug, PartialEq, Eq)]
pub enum TemplateFault {
    /// The id is below 256.
    TemplateId,
    /// The record passes the end of its set.
    TemplateCut,
    /// The record has no field, or the records that it describes may have no octet.
    TemplateEmpty,
    /// A field that is read has a width that isn't allowed.
    FieldWidth,
    /// There is no scope field, or there are more than fields.
    ScopeCount,
    NoMemory,
}

impl From<NoMemory> for TemplateFault {
    ghost use Rattle.flow_templates.specs.declared.template.TemplateFault.TheVariants as fault;

    ghost from_gives = { λ _ answer. answer ≡ fault.NoMemory };

    fn from(_: NoMemory) -> TemplateFault {
        TemplateFault::NoMemory
    }
}

/// What a template record says of its id.
#[derive(Debug, PartialEq, Eq, Drop)]
pub enum TemplateWhat {
    Defined(Template),
    /// No template has this id any more.
    Withdrawn,
    /// The domain has no template of this kind any more.
    AllWithdrawn,
}

/// A template record, and the octets that it takes.
#[derive(Debug, PartialEq, Eq, Drop)]
pub struct TemplateTurn {
    pub id: u16,
    pub used: u32,
    pub what: TemplateWhat,
}

/// The fewest octets of a field. In IPFIX the width 65535 says that each record tells its own (RFC 7011, 7).
pub(crate) fn least_width(version: u16, field: &FieldSpec) -> u16
    ensures { result ≡ least_width version field.now }
{
    if version == 10 && field.width == 65535 {
        1
    } else {
        field.width
    }
}

/// The fewest octets of a record with these fields.
pub(crate) fn least_length_of(version: u16, fields: &[FieldSpec]) -> u32
    requires { length fields.now ≤ 65535 }
    ensures { result ≡ least_length version fields.now }
{
    let mut octets = 0u32;
    for field in fields {
        octets += u32::from(least_width(version, field));
    }
    octets
}

impl Template {
    /// The fewest octets of a record that this template describes.
    pub fn least_length(&self, version: u16) -> u32
        requires { length self.now.fields ≤ 65535 }
        ensures { result ≡ least_length version self.now.fields }
    {
        least_length_of(version, self.fields.as_slice())
    }
}
