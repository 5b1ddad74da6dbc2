ghost use Rattle.std.specs.Prelude.{◌≡◌};
ghost use Rattle.outside_io.specs.declared.input_fault.InputFault.TheVariants.{NoMemory as OutOfMemory};

use acct_types::NoMemory;

/// Why an input gave no event: a read failed, memory ran out, or the capture that it reads isn't well formed. A place
/// counts the octets of the capture before the faulty one.
#[derive(Clone, Copy, Debug, PartialEq, Eq)]
pub enum InputFault {
    ReadFault,
    BadMagic,
    BadKind { place: u64 },
    Torn { place: u64 },
    TooLong { place: u64 },
    TooMany,
    NoMemory,
}

impl From<NoMemory> for InputFault {
    ghost from_gives = { λ _ e. e ≡ OutOfMemory };

    fn from(_: NoMemory) -> Self {
        InputFault::NoMemory
    }
}
