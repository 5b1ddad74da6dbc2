ghost use Rattle.std.specs.Prelude.{◌≡◌};

use acct_types::NoMemory;
use std::fmt;
use thiserror::Error;

/// What is wrong with a configuration. MissingKey and SameName are of no line.
#[derive(Clone, Copy, Debug, PartialEq, Eq)]
pub enum ConfigCause {
    NotText,
    NoColon,
    UnknownKey,
    NotInProfile,
    Repeated,
    UnknownPlugin,
    BadValue,
    UnknownPrimitive,
    TooManyPlugins,
    MissingKey,
    SameName,
}

impl ConfigCause {
    ghost use Rattle.config_keys.specs.Causes.{cause_text};

    /// The cause as the programs say it.
    pub fn text<'a>(self) -> &'a str
        ensures { result.now ≡ cause_text self }
    {
        match self {
            ConfigCause::NotText => "not-text",
            ConfigCause::NoColon => "no-colon",
            ConfigCause::UnknownKey => "unknown-key",
            ConfigCause::NotInProfile => "not-in-profile",
            ConfigCause::Repeated => "repeated",
            ConfigCause::UnknownPlugin => "unknown-plugin",
            ConfigCause::BadValue => "bad-value",
            ConfigCause::UnknownPrimitive => "unknown-primitive",
            ConfigCause::TooManyPlugins => "too-many-plugins",
            ConfigCause::MissingKey => "missing-key",
            ConfigCause::SameName => "same-name",
        }
    }
}

impl fmt::Display for ConfigCause {
    ghost use Rattle.std.specs.Prelude.{Some};
    ghost use Rattle.config_keys.specs.Causes.{cause_text};

    ghost output = { λ cause. Some (cause_text cause) };

    fn fmt<W: fmt::Write>(&self, f: &mut fmt::Formatter<W>) -> fmt::Result {
        f.write_str(self.text())
    }
}

/// Why a configuration is refused.
#[derive(Clone, Copy, Debug, PartialEq, Eq, Error)]
pub enum ConfigFault {
    /// The first line with a cause, from 1, or 0 where no line has one.
    #[error("line {line}: {cause}")]
    At { line: u32, cause: ConfigCause },
    #[error("out of memory")]
    NoMemory,
}

impl From<NoMemory> for ConfigFault {
    ghost use Rattle.config_keys.specs.declared.fault.ConfigFault.TheVariants as fault;

    ghost from_gives = { λ _ e. e ≡ fault.NoMemory };

    fn from(_: NoMemory) -> Self {
        ConfigFault::NoMemory
    }
}
