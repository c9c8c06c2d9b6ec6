// Which rule a name is given.
ghost use Rattle.std.specs.Prelude.{◌≡◌, ◌↔◌, ◌<◌, All, IfSome, IfNone, IsTrue, length, slice_get};
ghost use Rattle.policy_rules.specs.Choice.{IsBetter, IsChosen, IsNameBefore};
ghost use Rattle.policy_rules.specs.Matching.{Matches};

use crate::{Rule, matches};
use std::cmp::Ordering;

/// The place of the rule that the name is given: among the rules that match, the longest pattern,
/// then the least rule name by bytes, then the first.
pub fn choose(rules: &[Rule], name: &[u8]) -> Option<usize>
    ensures some { IfSome result (IsChosen rules.now name.now) }
    ensures none { IfNone result (All (λ rule. ¬ Matches rule.pattern name.now) rules.now) }
{
    let mut chosen: Option<usize> = None;
    for (i, rule) in rules.iter().enumerate() {
        if matches(rule.pattern.bytes(), name) && is_better_than(rule, &chosen, rules) {
            chosen = Some(i);
        }
    }
    chosen
}

/// Whether the rule goes before the one that is chosen, or none is.
fn is_better_than(rule: &Rule, chosen: &Option<usize>, rules: &[Rule]) -> bool
    requires { IfSome chosen.now (λ k. k < length rules.now) }
    ensures { IsTrue result ↔ IfSome chosen.now (λ k. IfSome (slice_get rules.now k) (IsBetter rule.now)) }
{
    match chosen {
        None => true,
        Some(k) => is_better(rule, &rules[*k]),
    }
}

/// Whether the rule has the longer pattern, or as long a one and the lesser name.
fn is_better(rule: &Rule, other: &Rule) -> bool
    ensures { IsTrue result ↔ IsBetter rule.now other.now }
{
    let longer = rule.pattern.bytes().len();
    let shorter = other.pattern.bytes().len();
    if longer == shorter {
        is_before(rule.name.bytes(), other.name.bytes())
    } else {
        shorter < longer
    }
}

/// Whether the name is before the other one, by bytes.
fn is_before(name: &[u8], other: &[u8]) -> bool
    ensures { IsTrue result ↔ IsNameBefore name.now other.now }
{
    match name.cmp(other) {
        Ordering::Less => true,
        _ => false,
    }
}
