ghost use Rattle.std.specs.Prelude.{◌≤◌, ◌-◌, ◌^◌};

/// The most records, routing messages, and octets of the events of an input that a run takes.
pub struct Limits {
    pub records: u64,
    pub messages: u64,
    pub octets: u64,
    pub ghost few_records: { records ≤ 2 ^ 32 - 1 },
    pub ghost few_messages: { messages ≤ 2 ^ 32 - 1 },
    pub ghost few_octets: { octets ≤ 2 ^ 40 },
}

impl Limits {
    /// The limits of every run.
    pub const FULL: Limits = Limits {
        records: 4_294_967_295,
        messages: 4_294_967_295,
        octets: 1_099_511_627_776,
    };
}
