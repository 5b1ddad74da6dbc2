ghost use Rattle.std.specs.Prelude.{◌≡◌};

use acct_types::NoMemory;
use std::fmt;
use thiserror::Error;

/// What is wrong with a line of a map.
#[derive(Clone, Copy, Debug, PartialEq, Eq)]
pub enum MapCause {
    /// An octet above 126, or one below 32 other than a tab.
    NotText,
    /// A member without `=`.
    NoEquals,
    /// A key that this kind of map doesn't have.
    UnknownKey,
    /// A key that stands twice.
    Repeated,
    /// A value that its key doesn't take.
    BadValue,
    /// A key that is required isn't there.
    MissingKey,
    /// A rule of tags that gives nothing.
    NoAction,
    /// The rule after the last that a map may have.
    TooManyRules,
}

impl MapCause {
    ghost use Rattle.pretag_map.specs.Causes.{cause_text};

    /// The cause as the programs say it.
    pub fn text<'a>(self) -> &'a str
        ensures { result.now ≡ cause_text self }
    {
        match self {
            MapCause::NotText => "not-text",
            MapCause::NoEquals => "no-equals",
            MapCause::UnknownKey => "unknown-key",
            MapCause::Repeated => "repeated",
            MapCause::BadValue => "bad-value",
            MapCause::MissingKey => "missing-key",
            MapCause::NoAction => "no-action",
            MapCause::TooManyRules => "too-many-rules",
        }
    }
}

impl fmt::Display for MapCause {
    ghost use Rattle.std.specs.Prelude.{Some};
    ghost use Rattle.pretag_map.specs.Causes.{cause_text};

    ghost output = { λ cause. Some (cause_text cause) };

    fn fmt<W: fmt::Write>(&self, f: &mut fmt::Formatter<W>) -> fmt::Result {
        f.write_str(self.text())
    }
}

/// Why a map is refused.
#[derive(Clone, Copy, Debug, PartialEq, Eq, Error)]
pub enum MapFault {
    /// The first line with a cause, from 1.
    #[error("line {line}: {cause}")]
    At { line: u32, cause: MapCause },
    #[error("out of memory")]
    NoMemory,
}

impl From<NoMemory> for MapFault {
    ghost use Rattle.pretag_map.specs.declared.fault.MapFault.TheVariants as fault;

    ghost from_gives = { λ _ e. e ≡ fault.NoMemory };

    fn from(_: NoMemory) -> Self {
        MapFault::NoMemory
    }
}
