ghost use Rattle.std.specs.Prelude.{◌≡◌, ◌<◌, ◌^◌, ◌∷◌, [], true, false, IsNone, IfSome};
ghost use Rattle.acct_types.specs.Columns.{all_columns, place_of};

/// A column of an output, named after the primitive that asks for it. Columns order as they are printed.
#[derive(Clone, Copy, Debug, PartialEq, Eq)]
pub enum Column {
    Tag,
    Tag2,
    Label,
    AcctWindow,
    SrcMac,
    DstMac,
    Vlan,
    SrcAs,
    DstAs,
    StdComm,
    AsPath,
    LocalPref,
    Med,
    PeerDstAs,
    PeerSrcIp,
    PeerDstIp,
    InIface,
    OutIface,
    SrcHost,
    DstHost,
    SrcNet,
    DstNet,
    SrcMask,
    DstMask,
    SrcPort,
    DstPort,
    Proto,
    Tos,
}

/// How many columns there are.
const COLUMNS: usize = 28;

static ALL: [Column; COLUMNS] = [
    Column::Tag,
    Column::Tag2,
    Column::Label,
    Column::AcctWindow,
    Column::SrcMac,
    Column::DstMac,
    Column::Vlan,
    Column::SrcAs,
    Column::DstAs,
    Column::StdComm,
    Column::AsPath,
    Column::LocalPref,
    Column::Med,
    Column::PeerDstAs,
    Column::PeerSrcIp,
    Column::PeerDstIp,
    Column::InIface,
    Column::OutIface,
    Column::SrcHost,
    Column::DstHost,
    Column::SrcNet,
    Column::DstNet,
    Column::SrcMask,
    Column::DstMask,
    Column::SrcPort,
    Column::DstPort,
    Column::Proto,
    Column::Tos,
];

impl Column {
    /// All columns in their order.
    #[tactic(auto, unfolding(crate::specs::Columns::all_columns))]
    pub fn all() -> &'static [Column]
        ensures { result.now ≡ all_columns }
    {
        &ALL
    }

    /// The place among all columns, from 0.
    fn place(self) -> u8
        ensures { result ≡ place_of self }
    {
        self as u8
    }
}

/// What to count apart by: columns in their order without repeats, and whether flows are counted beside packets and
/// bytes.
#[derive(Clone, Copy, Debug, PartialEq, Eq)]
pub struct Primitives {
    // A bit for each column, at its place.
    set: u32,
    pub flows: bool,
    ghost within: { set < 2 ^ 28 },
}

impl Primitives {
    ghost use Rattle.acct_types.specs.Columns.{has_column, with_column};
    ghost use Rattle.acct_types.specs.Primitives.{columns_of};

    /// No column, and no flows. Takes no memory.
    #[tactic(auto, using(crate::proofs::ColumnLemmas::nothing_set))]
    pub fn none() -> Primitives
        ensures columns { columns_of result ≡ [] }
        ensures flows { result.flows ≡ false }
    {
        Primitives {
            set: 0,
            flows: false,
        }
    }

    /// With one more column in its place, where it isn't there yet. Takes no memory.
    #[tactic(auto, using(crate::proofs::ColumnLemmas::one_more_set, crate::proofs::ColumnLemmas::stays_within))]
    pub fn with(self, column: Column) -> Primitives
        ensures columns { columns_of result ≡ with_column column (columns_of self) }
        ensures flows { result.flows ≡ self.flows }
    {
        Primitives {
            set: self.set | 1 << column.place(),
            flows: self.flows,
        }
    }

    /// With flows counted beside packets and bytes. Takes no memory.
    pub fn with_flows(self) -> Primitives
        ensures columns { columns_of result ≡ columns_of self }
        ensures flows { result.flows ≡ true }
    {
        Primitives {
            set: self.set,
            flows: true,
        }
    }

    /// Whether the column is there. Takes no memory.
    #[tactic(auto, using(crate::proofs::ColumnLemmas::tests_bit))]
    pub fn has(&self, column: Column) -> bool
        ensures { result ≡ has_column (columns_of self.now) column }
    {
        (self.set >> column.place()) & 1 == 1
    }

    /// The first column and the others, or None where there is no column. Takes no memory.
    #[tactic(auto, using(crate::proofs::ColumnLemmas::first_set, crate::proofs::ColumnLemmas::place_within))]
    pub fn split_first(&self) -> Option<(Column, Primitives)>
        ensures none { IsNone result → columns_of self.now ≡ [] }
        ensures first { IfSome result (λ split. columns_of self.now ≡ split.0 ∷ columns_of split.1) }
        ensures flows { IfSome result (λ split. (split.1).flows ≡ self.now.flows) }
    {
        if self.set == 0 {
            return None;
        }
        let place = self.set.trailing_zeros();
        let others = Primitives {
            set: self.set & !(1 << place),
            flows: self.flows,
        };
        Some((Column::all()[place as usize], others))
    }
}
