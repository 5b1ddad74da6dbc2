ghost use Rattle.std.specs.Prelude.{◌≡◌};
ghost use Rattle.outside_io.specs.declared.fault.IoFault.TheVariants.{NoMemory as OutOfMemory};

use acct_types::NoMemory;

/// Why a call of the outside came to nothing: it failed, or memory ran out.
#[derive(Clone, Copy, Debug, PartialEq, Eq)]
pub enum IoFault {
    Failed,
    NoMemory,
}

impl From<NoMemory> for IoFault {
    ghost from_gives = { λ _ e. e ≡ OutOfMemory };

    fn from(_: NoMemory) -> Self {
        IoFault::NoMemory
    }
}

/// Where an output begins: behind the octets that the name has, or with none.
#[derive(Clone, Copy, Debug, PartialEq, Eq)]
pub enum Begin {
    Append,
    Anew,
}
