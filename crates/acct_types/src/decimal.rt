ghost use Rattle.std.specs.Prelude.{◌≡◌, ◌++◌, OnOk, OnErr};

use crate::{NoMemory, Octets};
use itoa::{Buffer, Integer};

/// Appends a number in decimal digits. After NoMemory `out` is unchanged.
pub fn append_decimal<I: Integer>(number: I, out: &mut Octets) -> Result<(), NoMemory>
    ensures ok { OnOk result (out.new ≡ out.old ++ I.text number) }
    ensures err { OnErr result (out.new ≡ out.old) }
{
    out.extend(Buffer::new().format(number).as_bytes())
}
