// Kinds of aggregation.
ghost use Rattle.std.specs.Prelude.{◌≡◌, ◌<◌, ◌↔◌};
ghost use Rattle.archive_policy.specs.Kinds.{all_kinds, kind_name, kind_index, is_rate};

/// What is computed of the values of a bucket, in table order.
#[derive(Clone, Copy, Debug, PartialEq, Eq)]
pub enum Kind {
    /// The sum over the number of values.
    Mean,
    /// The least value.
    Min,
    /// The greatest value.
    Max,
    /// The sum.
    Sum,
    /// The number of values.
    Count,
    /// The earliest value.
    First,
    /// The latest value.
    Last,
    /// The number of distinct values.
    Nunique,
    /// The same of the changes in place of the values.
    RateMean,
    RateMin,
    RateMax,
    RateSum,
    RateCount,
    RateFirst,
    RateLast,
    RateNunique,
}

const TABLE: [Kind; 16] = [
    Kind::Mean,
    Kind::Min,
    Kind::Max,
    Kind::Sum,
    Kind::Count,
    Kind::First,
    Kind::Last,
    Kind::Nunique,
    Kind::RateMean,
    Kind::RateMin,
    Kind::RateMax,
    Kind::RateSum,
    Kind::RateCount,
    Kind::RateFirst,
    Kind::RateLast,
    Kind::RateNunique,
];

const FIRST_RATE: u8 = 8;

impl Kind {
    /// The kinds, in table order.
    pub(crate) fn table() -> &'static [Kind]
        ensures { result.now ≡ all_kinds }
    {
        &TABLE
    }

    /// The kind with this name.
    pub fn of_name(name: &[u8]) -> Option<Kind>
        ensures { (kind : Kind) → (result ≡ Some kind) ↔ (name.now ≡ kind_name kind) }
    {
        for kind in Kind::table() {
            if name == kind.name().as_bytes() {
                return Some(*kind);
            }
        }
        None
    }

    /// The name.
    pub fn name(self) -> &'static str
        ensures { result.now ≡ kind_name self }
    {
        match self {
            Kind::Mean => "mean",
            Kind::Min => "min",
            Kind::Max => "max",
            Kind::Sum => "sum",
            Kind::Count => "count",
            Kind::First => "first",
            Kind::Last => "last",
            Kind::Nunique => "nunique",
            Kind::RateMean => "rate:mean",
            Kind::RateMin => "rate:min",
            Kind::RateMax => "rate:max",
            Kind::RateSum => "rate:sum",
            Kind::RateCount => "rate:count",
            Kind::RateFirst => "rate:first",
            Kind::RateLast => "rate:last",
            Kind::RateNunique => "rate:nunique",
        }
    }

    /// The kind at this place of the table, counted from 0.
    pub fn of_index(index: u8) -> Option<Kind>
        ensures { (kind : Kind) → (result ≡ Some kind) ↔ (index ≡ kind_index kind) }
    {
        let table = Kind::table();
        let place = usize::from(index);
        if place < table.len() {
            Some(table[place])
        } else {
            None
        }
    }

    /// The place in the table, counted from 0.
    pub fn index(self) -> u8
        ensures place { result ≡ kind_index self }
        ensures range { result < 16 }
    {
        self as u8
    }

    /// Whether it is taken of the changes in place of the values.
    pub fn is_rate(self) -> bool
        ensures { result ≡ is_rate self }
    {
        FIRST_RATE <= self.index()
    }
}
