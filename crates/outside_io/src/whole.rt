ghost use Rattle.std.specs.Prelude.{◌≡◌, ◌≢◌, ◌≤◌, ◌<◌, ◌⊎◌, ◌++◌, ◌∷◌, List, ℕ, [], length, false, Some, IsTrue, IfOk, OnOk, OnErr, IsErrOf};
ghost use Rattle.std.specs.Io.KnownBytes.{append_known, IsAtEnd};
ghost use Rattle.outside_io.specs.Causes.{HasCause, IsStillUnlessFailed, Rose, RisesAt};
ghost use Rattle.outside_io.specs.Octets.{Takes, WritesFront};

use crate::{IoFault, Place, Sink, Source};
use acct_types::{NoMemory, Octets, Text};
use std::alloc::Global;

/// How many octets a read asks for at most.
const PIECE: usize = 65_536;

/// What was read of a source, and whether a read failed before its end.
#[derive(Debug, Drop)]
pub struct ReadOctets {
    pub octets: Octets,
    pub failed: bool,
}

/// Reads until nothing is left, a read fails, or `most` octets are there. What was read before a failed read is
/// kept. After NoMemory some octets were taken.
pub fn read_all<S: Source>(
    alloc: Global,
    source: &mut S,
    most: usize,
) -> Result<ReadOctets, NoMemory>
    ensures taken { IfOk result (λ read. Takes (S.state source.old).left read.octets (S.state source.new).left) }
    ensures err { OnErr result ((octets : List ℕ) × Takes (S.state source.old).left octets (S.state source.new).left) }
    ensures whole { IfOk result (λ read. read.failed ≡ false → length read.octets < most → IsAtEnd (S.state source.new).left) }
    ensures bound { IfOk result (λ read. length read.octets ≤ most) }
    ensures failed { IfOk result (λ read. IsTrue read.failed → Rose (S.state source.old).faults (S.state source.new).faults) }
    ensures later { (S.state source.old).faults ≤ (S.state source.new).faults }
{
    let mut octets = Octets::new(alloc);
    let mut buf = [0u8; PIECE];
    while octets.len() < most {
        let room = PIECE.min(most - octets.len());
        let piece = &mut buf[..room];
        let count = match source.read(piece) {
            Ok(count) => count,
            Err(IoFault::Failed) => {
                return Ok(ReadOctets {
                    octets,
                    failed: true,
                });
            }
            Err(IoFault::NoMemory) => return Err(NoMemory),
        };
        if count == 0 {
            break;
        }
        octets.extend(&piece[..count])?;
    }
    Ok(ReadOctets {
        octets,
        failed: false,
    })
}

/// Writes all of the octets. After an error a front of them was written.
pub fn write_all<K: Sink>(sink: &mut K, octets: &[u8]) -> Result<(), IoFault>
    ensures ok { OnOk result ((K.state sink.new).held ≡ append_known (K.state sink.old).held octets.now) }
    ensures err { OnErr result (WritesFront (K.state sink.old).held (K.state sink.new).held octets.now) }
    ensures cause { HasCause (K.state sink.old).faults (K.state sink.new).faults result }
    ensures still { IsStillUnlessFailed (K.state sink.old).faults (K.state sink.new).faults result }
{
    let mut rest = octets;
    while !rest.is_empty() {
        let count = sink.write(rest)?;
        let (_, after) = rest.split_at(count);
        rest = after;
    }
    Ok(())
}

/// Opens the name, reads until its end or `most` octets are there, and closes it. A failed read is Failed.
pub fn read_name<P: Place>(
    alloc: Global,
    place: &mut P,
    name: &Text,
    most: usize,
) -> Result<Octets, IoFault>
    ensures whole { IsTrue P.tells → IfOk result (λ octets. length octets < most → (P.state place.old).names name.now ≡ Some octets) }
    ensures front { IsTrue P.tells → IfOk result (λ octets. (rest : List ℕ) × ((P.state place.old).names name.now ≡ Some (octets ++ rest))) }
    ensures bound { IfOk result (λ octets. length octets ≤ most) }
    ensures names { IsTrue P.tells → (P.state place.new).names ≡ (P.state place.old).names }
    ensures taken { IsTrue P.tells → IfOk result (λ octets. (P.state place.new).taken name.now ≡ (P.state place.old).taken name.now ++ octets ∷ []) }
    ensures others { IsTrue P.tells → (other : List ℕ) → other ≢ name.now → (P.state place.new).taken other ≡ (P.state place.old).taken other }
    ensures cause { IsErrOf result IoFault.Failed → Rose ((P.state place.old).opens name.now) ((P.state place.new).opens name.now)
        ⊎ Rose ((P.state place.old).reads name.now) ((P.state place.new).reads name.now) }
    ensures opens { RisesAt (P.state place.old).opens (P.state place.new).opens name.now }
    ensures reads { RisesAt (P.state place.old).reads (P.state place.new).reads name.now }
    ensures writes { (P.state place.new).writes ≡ (P.state place.old).writes }
{
    let mut input = place.open_in(name)?;
    let read = read_all(alloc, &mut input, most);
    // A close that found no memory counts no failed read, so its answer goes first.
    place.close_in(name, input)?;
    let read = read?;
    if read.failed {
        return Err(IoFault::Failed);
    }
    Ok(read.octets)
}
