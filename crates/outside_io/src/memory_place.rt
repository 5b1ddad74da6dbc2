ghost use Rattle.std.specs.Prelude.{◌≡◌, ◌≢◌, ◌≤◌, ◌<◌, ◌+◌, ◌-◌, ◌^◌, ◌⊎◌, ◌∷◌, ◌++◌, List, ℕ, [], length, drop, Some, None, IsSome, IsErrOf, IfOk, OnOk, OnErr, MatchResult};
ghost use Rattle.std.specs.Io.KnownBytes.{prepend_known};
ghost use Rattle.outside_io.specs.Causes.{HasCauseAt, RisesWhere, RisesAt};
ghost use Rattle.outside_io.specs.Octets.{Takes};
ghost use Rattle.outside_io.specs.Plan.{plan_of, after_call, FailsNext, FailsWhere};
ghost use Rattle.outside_io.specs.Named.{value_of, count_of};
ghost use Rattle.outside_io.specs.Names.{begun, Puts, PutsFront};
ghost use Rattle.outside_io.specs.Memory.{source_left, source_most, source_plan, source_faults, sink_held, sink_most, sink_plan, sink_faults};
ghost use Rattle.outside_io.specs.MemoryPlace.{most_of, failing_of};

use crate::named::{Named, NamedValues};
use crate::shape::Shape;
use crate::{Begin, CallPlan, IoFault, MemorySink, MemorySource, Place};
use acct_types::{List, NoMemory, Octets, Text};
use std::alloc::Global;

/// A place in memory, of which some calls fail.
#[derive(Debug, Drop)]
pub struct MemoryPlace {
    alloc: Global,
    files: NamedValues<Octets>,
    taken: List<Named<Octets>>,
    open_faults: NamedValues<u64>,
    read_faults: NamedValues<u64>,
    write_faults: NamedValues<u64>,
    shapes: NamedValues<Shape>,
    opens: CallPlan,
    closes: CallPlan,
}

impl MemoryPlace {
    ghost use Rattle.std.specs.Option.{option_copied};
    ghost use Rattle.outside_io.specs.MemoryPlace.{place_names, place_taken, place_open_faults, place_read_faults, place_write_faults, place_opens, place_closes, place_most, place_failing, PutsShape, SameShapes, SameCounts, SamePlans};

    /// A place without a name. The openings and the closings of outputs that these lists number, from 1, fail.
    pub fn new(alloc: Global, failing_opens: List<u64>, failing_closes: List<u64>) -> MemoryPlace
        ensures names { (name : List ℕ) → place_names result name ≡ None }
        ensures taken { (name : List ℕ) → place_taken result name ≡ [] }
        ensures most { (name : List ℕ) → place_most result name ≡ 2 ^ 64 - 1 }
        ensures failing { (name : List ℕ) → place_failing result name ≡ [] }
        ensures opens { place_opens result ≡ plan_of failing_opens }
        ensures closes { place_closes result ≡ plan_of failing_closes }
        ensures open_faults { (name : List ℕ) → place_open_faults result name ≡ 0 }
        ensures read_faults { (name : List ℕ) → place_read_faults result name ≡ 0 }
        ensures write_faults { (name : List ℕ) → place_write_faults result name ≡ 0 }
    {
        MemoryPlace {
            alloc,
            files: NamedValues::new(alloc),
            taken: List::new(alloc),
            open_faults: NamedValues::new(alloc),
            read_faults: NamedValues::new(alloc),
            write_faults: NamedValues::new(alloc),
            shapes: NamedValues::new(alloc),
            opens: CallPlan::new(failing_opens),
            closes: CallPlan::new(failing_closes),
        }
    }

    /// Gives the name these octets. After NoMemory the place is unchanged.
    pub fn put(&mut self, name: Text, octets: Octets) -> Result<(), NoMemory>
        ensures ok { OnOk result (Puts (place_names self.old) (place_names self.new) name (Some octets)) }
        ensures err { OnErr result (self.new ≡ self.old) }
        ensures shapes { SameShapes self.old self.new }
        ensures counts { SameCounts self.old self.new }
        ensures plans { SamePlans self.old self.new }
    {
        self.files.put(&name, octets)
    }

    /// The octets of the name.
    pub fn get(&self, name: &Text) -> Option<&Octets>
        ensures { option_copied result ≡ place_names self.now name.now }
    {
        self.files.find(name)
    }

    /// From now on the source or sink of the name moves at most `most` octets a call, and those of its calls that
    /// `failing` numbers, from 1, fail. After NoMemory the place is unchanged.
    pub fn shape(&mut self, name: Text, most: u64, failing: List<u64>) -> Result<(), NoMemory>
        requires { 1 ≤ most }
        ensures ok { OnOk result (PutsShape self.old self.new name most failing) }
        ensures err { OnErr result (self.new ≡ self.old) }
        ensures names { place_names self.new ≡ place_names self.old }
        ensures counts { SameCounts self.old self.new }
        ensures plans { SamePlans self.old self.new }
    {
        self.shapes.put(&name, Shape { most, failing })
    }
}

// What an output of that name begins with.
fn start_of(
    alloc: Global,
    files: &NamedValues<Octets>,
    name: &Text,
    begin: Begin,
) -> Result<Octets, NoMemory>
    ensures { IfOk result (λ octets. octets ≡ begun begin (value_of files.now) name.now) }
{
    match begin {
        Begin::Anew => Ok(Octets::new(alloc)),
        Begin::Append => match files.find(name) {
            Some(octets) => octets.copy(),
            None => Ok(Octets::new(alloc)),
        },
    }
}

// What the source or sink of that name is made with.
fn shape_of(alloc: Global, shapes: &NamedValues<Shape>, name: &Text) -> Result<Shape, NoMemory>
    ensures most { IfOk result (λ shape. shape.most ≡ most_of (value_of shapes.now name.now)) }
    ensures failing { IfOk result (λ shape. shape.failing ≡ failing_of (value_of shapes.now name.now)) }
{
    match shapes.find(name) {
        None => Ok(Shape {
            most: u64::MAX,
            failing: List::new(alloc),
        }),
        Some(shape) => Ok(Shape {
            most: shape.most,
            failing: shape.failing.copy()?,
        }),
    }
}

impl Place for MemoryPlace {
    ghost use Rattle.std.specs.Prelude.{true};
    ghost use Rattle.outside_io.specs.MemoryPlace.{place_names, place_taken, place_open_faults, place_read_faults, place_write_faults, place_opens, place_closes, place_most, place_failing, place_state, SameShapes, SamePlans};

    type In = MemorySource;

    type Out = MemorySink;

    ghost tells = { true };

    ghost state = { place_state };

    /// Fails where the name is missing or the plan of openings says so.
    fn open_in(&mut self, name: &Text) -> Result<MemorySource, IoFault>
        ensures opened { IfOk result (λ input. IsSome (place_names self.old name.now) × (Some (source_left input) ≡ place_names self.old name.now)) }
        ensures names { place_names self.new ≡ place_names self.old }
        ensures taken { place_taken self.new ≡ place_taken self.old }
        ensures fresh { IfOk result (λ input. source_faults input ≡ 0) }
        ensures cause { HasCauseAt (place_open_faults self.old) (place_open_faults self.new) name.now result }
        ensures reads { place_read_faults self.new ≡ place_read_faults self.old }
        ensures writes { place_write_faults self.new ≡ place_write_faults self.old }
        ensures most { IfOk result (λ input. source_most input ≡ place_most self.old name.now) }
        ensures plan { IfOk result (λ input. source_plan input ≡ plan_of (place_failing self.old name.now)) }
        ensures fails { FailsWhere (FailsNext (place_opens self.old) ⊎ (place_names self.old name.now ≡ None)) result }
        ensures kept { IfOk result (λ _. place_open_faults self.new ≡ place_open_faults self.old) }
        ensures opens { place_opens self.new ≡ after_call (place_opens self.old) }
        ensures closes { place_closes self.new ≡ place_closes self.old }
        ensures shapes { SameShapes self.old self.new }
    {
        if self.opens.next_fails() {
            self.open_faults.raise(name)?;
            return Err(IoFault::Failed);
        }
        let Some(octets) = self.files.find(name) else {
            self.open_faults.raise(name)?;
            return Err(IoFault::Failed);
        };
        let octets = octets.copy()?;
        let Shape { most, failing } = shape_of(self.alloc, &self.shapes, name)?;
        Ok(MemorySource::new(octets, most, failing))
    }

    fn close_in(&mut self, name: &Text, input: MemorySource) -> Result<(), NoMemory>
        requires { (before : List ℕ) × Takes (place_names self.old name.now) before (Some (source_left input)) }
        ensures names { place_names self.new ≡ place_names self.old }
        ensures taken { OnOk result ((before : List ℕ) → Takes (place_names self.old name.now) before (Some (source_left input))
            → Puts (place_taken self.old) (place_taken self.new) name.now (place_taken self.old name.now ++ before ∷ [])) }
        ensures others { (other : List ℕ) → other ≢ name.now → place_taken self.new other ≡ place_taken self.old other }
        ensures opens { place_open_faults self.new ≡ place_open_faults self.old }
        ensures cause { OnOk result (RisesWhere (source_faults input) (place_read_faults self.old) (place_read_faults self.new) name.now) }
        ensures reads { RisesAt (place_read_faults self.old) (place_read_faults self.new) name.now }
        ensures writes { place_write_faults self.new ≡ place_write_faults self.old }
        ensures plans { SamePlans self.old self.new }
        ensures shapes { SameShapes self.old self.new }
    {
        self.read_faults.raise_where(name, input.faults())?;
        let Some(octets) = self.files.find(name) else {
            return Ok(());
        };
        let count = octets.len() - input.left_len();
        let taken = Octets::from_slice(self.alloc, &octets.as_slice()[..count])?;
        let name = name.copy()?;
        self.taken.push(Named { name, value: taken })?;
        Ok(())
    }

    /// Fails where the plan of openings says so.
    fn open_out(&mut self, name: &Text, begin: Begin) -> Result<MemorySink, IoFault>
        ensures opened { IfOk result (λ out. Some (sink_held out) ≡ Some []) }
        ensures names { MatchResult result
            (λ _. Puts (place_names self.old) (place_names self.new) name.now (Some (begun begin (place_names self.old) name.now)))
            (λ _. place_names self.new ≡ place_names self.old) }
        ensures taken { place_taken self.new ≡ place_taken self.old }
        ensures fresh { IfOk result (λ out. sink_faults out ≡ 0) }
        ensures cause { HasCauseAt (place_open_faults self.old) (place_open_faults self.new) name.now result }
        ensures reads { place_read_faults self.new ≡ place_read_faults self.old }
        ensures writes { place_write_faults self.new ≡ place_write_faults self.old }
        ensures most { IfOk result (λ out. sink_most out ≡ place_most self.old name.now) }
        ensures plan { IfOk result (λ out. sink_plan out ≡ plan_of (place_failing self.old name.now)) }
        ensures fails { FailsWhere (FailsNext (place_opens self.old)) result }
        ensures kept { IfOk result (λ _. place_open_faults self.new ≡ place_open_faults self.old) }
        ensures opens { place_opens self.new ≡ after_call (place_opens self.old) }
        ensures closes { place_closes self.new ≡ place_closes self.old }
        ensures shapes { SameShapes self.old self.new }
    {
        if self.opens.next_fails() {
            self.open_faults.raise(name)?;
            return Err(IoFault::Failed);
        }
        let Shape { most, failing } = shape_of(self.alloc, &self.shapes, name)?;
        let octets = start_of(self.alloc, &self.files, name, begin)?;
        self.files.put(name, octets)?;
        Ok(MemorySink::new(self.alloc, most, failing))
    }

    /// Fails where the plan of closings says so. The name is then left with its old octets, none with Anew.
    fn close_out(&mut self, name: &Text, begin: Begin, out: MemorySink) -> Result<(), IoFault>
        ensures ok { OnOk result (Puts (place_names self.old) (place_names self.new) name.now
            (prepend_known (begun begin (place_names self.old) name.now) (Some (sink_held out)))) }
        ensures failed { IsErrOf result IoFault.Failed →
            PutsFront (place_names self.old) (place_names self.new) name.now (begun begin (place_names self.old) name.now) (Some (sink_held out)) }
        ensures others { (other : List ℕ) → other ≢ name.now → place_names self.new other ≡ place_names self.old other }
        ensures taken { place_taken self.new ≡ place_taken self.old }
        ensures opens { place_open_faults self.new ≡ place_open_faults self.old }
        ensures reads { place_read_faults self.new ≡ place_read_faults self.old }
        ensures cause { HasCauseAt (place_write_faults self.old) (place_write_faults self.new) name.now result }
        ensures kept { OnOk result (RisesWhere (sink_faults out) (place_write_faults self.old) (place_write_faults self.new) name.now) }
        ensures fails { FailsWhere (FailsNext (place_closes self.old)) result }
        ensures closes { place_closes self.new ≡ after_call (place_closes self.old) }
        ensures plan { place_opens self.new ≡ place_opens self.old }
        ensures shapes { SameShapes self.old self.new }
    {
        let fails = self.closes.next_fails();
        let mut octets = start_of(self.alloc, &self.files, name, begin)?;
        if fails {
            self.write_faults.raise(name)?;
            self.files.put(name, octets)?;
            return Err(IoFault::Failed);
        }
        octets.extend(out.held().as_slice())?;
        self.write_faults.raise_where(name, out.faults())?;
        self.files.put(name, octets)?;
        Ok(())
    }
}
