// Bodies of rules.
ghost use Rattle.std.specs.Prelude.{◌≡◌, ◌≢◌, IfOk, IfErr, Ok, Err};
ghost use Rattle.serde_json.specs.View.{view};
ghost use Rattle.control_docs.specs.declared.fault.ControlBodyFault.TheVariants.{Memory};
ghost use Rattle.control_docs.specs.Fault.{Gives};
ghost use Rattle.control_docs.specs.Rule.{rule_asked, rule_read};

use crate::ControlBodyFault;
use crate::body::value_in;
use crate::member::required_name;
use crate::shape::Shape;
use policy_rules::Rule;
use serde_json::Value;
use std::alloc::Global;

/// The rule that a body asks for: an object with `name`, `metric_pattern` and
/// `archive_policy_name`.
#[tactic(auto, unfolding(crate::specs::Rule::rule_read))]
pub fn read_rule(alloc: Global, body: &[u8]) -> Result<Rule, ControlBodyFault>
    ensures ok { IfOk result (λ rule. rule_read body.now ≡ Ok rule) }
    ensures err { IfErr result (λ fault. fault ≢ Memory → rule_read body.now ≡ Err fault) }
{
    let value = value_in(alloc, Shape::Rule, body)?;
    rule_asked(alloc, &value)
}

fn rule_asked(alloc: Global, value: &Value) -> Result<Rule, ControlBodyFault>
    ensures { Gives (λ rule. rule) result (rule_asked (view value.now)) }
{
    let name = required_name(alloc, value.get("name"))?;
    let pattern = required_name(alloc, value.get("metric_pattern"))?;
    let policy = required_name(alloc, value.get("archive_policy_name"))?;
    Ok(Rule {
        name,
        pattern,
        policy,
    })
}
