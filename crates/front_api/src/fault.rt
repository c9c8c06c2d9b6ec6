// Why a command was refused.
use gno_num::{Damaged, DiskFault, Spent};
use series_model::MetricId;

/// Why a command was refused.
#[derive(Clone, Copy, Debug, PartialEq, Eq)]
pub enum ControlFault {
    PolicyExists,
    PolicyUnknown,
    /// A metric or a rule names it.
    PolicyInUse,
    RuleExists,
    RuleUnknown,
    /// No policy is given, and no name, or no rule that matches the name.
    NoRule,
    /// Its resource has a metric of this name.
    NameTaken,
    MetricUnknown,
    ResourceExists,
    ResourceUnknown,
    /// It has metrics.
    ResourceInUse,
    /// The drawn identifier is live in its sack, or the index has a document of it or hasn't drawn it.
    IdTaken(MetricId),
    /// No identifier is left, or no room for entries.
    Spent(Spent),
    /// A disk failed in this call.
    DiskFault(DiskFault),
    /// Bytes that were read in this call are no record that may stand there.
    Damaged(Damaged),
    /// There was no memory.
    Memory,
}
