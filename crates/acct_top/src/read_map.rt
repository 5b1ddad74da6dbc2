//! The maps that a configuration names.

ghost use Rattle.std.specs.Prelude.{◌≡◌, ◌≤◌, List as Sequence, ℕ, length, Result, IsTrue, IfOk, IfErr, OnOk, ◌∷◌, []};
ghost use Rattle.acct_top.specs.Reading.{TakesEach, named, HasMapCause, IsMap, IsMapReading, IsMapRefusal, IsRefusalOf, MOST_TEXT, ReadReason, Says};
ghost use Rattle.outside_io.specs.States.{OnlyRead};
ghost use Rattle.pretag_map.specs.declared.fault.MapFault.{MapFault};

use crate::read_text::{read_text, refused};
use crate::{Answer, AnyCause};
use acct_types::Text;
use outside_io::Place;
use pretag_map::{MapFault, SamplingMap, TagMap, read_map, read_sampling_map};
use std::alloc::Global;

/// A map, which a text says.
pub trait Map: Drop {
    /// The map that a text says, or its first line with a cause.
    ghost said: { Sequence ℕ → Result Self MapFault };

    /// The map without a line.
    ghost nothing: { Self };

    fn empty(alloc: Global) -> Self
        ensures { result ≡ nothing };

    fn read(alloc: Global, text: &[u8]) -> Result<Self, MapFault>
        requires { length text.now ≤ MOST_TEXT }
        ensures { IsMapReading result (said text.now) };
}

impl Map for TagMap {
    ghost use Rattle.std.specs.Prelude.{[]};
    ghost use Rattle.pretag_map.specs.TagRules.{tag_map_of};

    ghost said = { tag_map_of };

    ghost nothing = { [] };

    fn empty(alloc: Global) -> TagMap {
        TagMap::empty(alloc)
    }

    fn read(alloc: Global, text: &[u8]) -> Result<TagMap, MapFault> {
        read_map(alloc, text)
    }
}

impl Map for SamplingMap {
    ghost use Rattle.std.specs.Prelude.{[]};
    ghost use Rattle.pretag_map.specs.SamplingLines.{sampling_map_of};

    ghost said = { sampling_map_of };

    ghost nothing = { [] };

    fn empty(alloc: Global) -> SamplingMap {
        SamplingMap::empty(alloc)
    }

    fn read(alloc: Global, text: &[u8]) -> Result<SamplingMap, MapFault> {
        read_sampling_map(alloc, text)
    }
}

fn open_map<P: Place, M: Map>(alloc: Global, place: &mut P, name: &Text) -> Result<M, Answer>
    ensures map { IsTrue P.tells → IfOk result (λ map. Says M.said (P.state place.old).names name.now map) }
    ensures refused { IsTrue P.tells → IfErr result (λ answer. IsRefusalOf (HasMapCause M.said) (P.state place.old).names name.now answer) }
    ensures reason { IfErr result (λ answer. ReadReason answer (P.state place.old) (P.state place.new)) }
    ensures names { IsTrue P.tells → (P.state place.new).names ≡ (P.state place.old).names }
    ensures taken { IsTrue P.tells → OnOk result (TakesEach (P.state place.old).names (name.now ∷ []) (P.state place.old).taken (P.state place.new).taken) }
    ensures only_read { OnlyRead (P.state place.old) (P.state place.new) }
{
    let text = match read_text(alloc, place, name) {
        Ok(text) => text,
        Err(answer) => return Err(answer),
    };
    match M::read(alloc, text.as_slice()) {
        Ok(map) => Ok(map),
        Err(MapFault::At { line, cause }) => Err(refused(name, line, AnyCause::Map(cause))),
        Err(MapFault::NoMemory) => Err(Answer::NoMemory),
    }
}

/// The map that a configuration names, or one without a line.
pub fn map_of<P: Place, M: Map>(
    alloc: Global,
    place: &mut P,
    name: &Option<Text>,
) -> Result<M, Answer>
    ensures map { IsTrue P.tells → IfOk result (λ map. IsMap M.said M.nothing (P.state place.old).names name.now map) }
    ensures refused { IsTrue P.tells → IfErr result (λ answer. IsMapRefusal M.said (P.state place.old).names name.now answer) }
    ensures reason { IfErr result (λ answer. ReadReason answer (P.state place.old) (P.state place.new)) }
    ensures names { IsTrue P.tells → (P.state place.new).names ≡ (P.state place.old).names }
    ensures taken { IsTrue P.tells → OnOk result (TakesEach (P.state place.old).names (named name.now) (P.state place.old).taken (P.state place.new).taken) }
    ensures only_read { OnlyRead (P.state place.old) (P.state place.new) }
{
    match name {
        None => Ok(M::empty(alloc)),
        Some(name) => open_map(alloc, place, name),
    }
}
