// Rules.
use archive_policy::Name;

/// Metrics whose name the pattern matches get this policy.
#[derive(Debug, Drop)]
pub struct Rule {
    pub name: Name,
    pub pattern: Name,
    pub policy: Name,
}
