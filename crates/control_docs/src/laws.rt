// What is true of bodies and documents.
ghost use Rattle.std.specs.Prelude.{◌≡◌, ◌≢◌, ◌↔◌, ℕ, List, map, Option, Some, Ok, Err, IsTrue, true};
ghost use Rattle.policy_rules.specs.declared.rule.Rule.{Rule};
ghost use Rattle.archive_policy.specs.declared.fault.PolicyFault.{PolicyFault};
ghost use Rattle.archive_policy.specs.declared.kind.Kind.{Kind};
ghost use Rattle.archive_policy.specs.declared.wanted.Wanted.{Wanted};
ghost use Rattle.archive_policy.specs.Faults.{IsFirst};
ghost use Rattle.archive_policy.specs.Names.{IsName};
ghost use Rattle.archive_policy.specs.Policies.{ArchivePolicy, IsArchivePolicy};
ghost use Rattle.serde_json.specs.Data.{Data};
ghost use Rattle.series_model.specs.declared.metric.MetricId.{MetricId};
ghost use Rattle.std.specs.Cmp.Lexicographic.{slice_cmp};
ghost use Rattle.std.specs.List.Sorted.{IsStrictlySortedBy};
ghost use Rattle.std.specs.Ordering.{nat_cmp};
ghost use Rattle.serde_json.specs.Read.{read};
ghost use Rattle.serde_json.specs.Find.{at, get};
ghost use Rattle.serde_json.specs.Written.{compact_text};
ghost use Rattle.control_docs.specs.declared.fault.ControlBodyFault.{ControlBodyFault};
ghost use Rattle.control_docs.specs.declared.shape.Shape.{Shape};
ghost use Rattle.control_docs.specs.Documents.{metric_value, policy_value, resource_value, rule_value};
ghost use Rattle.control_docs.specs.Member.{may_be_name};
ghost use Rattle.control_docs.specs.Policy.{policy_read};
ghost use Rattle.control_docs.specs.Rule.{rule_read};
ghost use Rattle.control_docs.specs.Shape.{fits, item_shape, member_shape, passes};

/// Where a value stands at its place, so does each member and each item: its key is given there,
/// and it is of the shape that is given for it.
pub fn all_that_stands_is_given()
    ensures members { (shape : Shape) (value member : Data) (key : List ℕ) → fits shape value ≡ true
        → get key value ≡ Some member → passes (member_shape shape key) (λ inner. fits inner member) ≡ true }
    ensures items { (shape : Shape) (value item : Data) (place : ℕ) → fits shape value ≡ true
        → at place value ≡ Some item → passes (item_shape shape) (λ inner. fits inner item) ≡ true }
{}

/// The texts that are read as names are the names.
pub fn names_are_names()
    ensures { (text : List ℕ) → IsTrue (may_be_name text) ↔ IsName text }
{}

/// A fault of a policy is the first one of what its body asks for, and never want of memory.
pub fn policy_faults_are_first()
    ensures first { (body : List ℕ) (fault : PolicyFault) → policy_read body ≡ Err (ControlBodyFault.Policy fault)
        → (back_window : ℕ) × (wanted : List Wanted) × (kinds : List Kind) × IsFirst back_window wanted kinds fault }
    ensures never_memory { (body : List ℕ) → policy_read body ≢ Err (ControlBodyFault.Policy PolicyFault.Memory) }
{}

/// The document of a rule is a body that asks for that rule.
pub fn rule_again()
    ensures { (rule : Rule) → IsName rule.name → IsName rule.pattern → IsName rule.policy
        → rule_read (compact_text (rule_value rule)) ≡ Ok rule }
{}

/// The document of a policy is a body that asks for that policy.
pub fn policy_again()
    ensures { (policy : ArchivePolicy) → IsArchivePolicy policy
        → policy_read (compact_text (policy_value policy)) ≡ Ok policy }
{}

/// The documents of metrics, and those of resources whose metrics come by rising name, are JSON
/// texts of their values.
pub fn documents_are_json()
    ensures metric { (id : MetricId) (policy : List ℕ) (name unit : Option (List ℕ)) (resource : Option ℕ)
        → read (compact_text (metric_value id policy name unit resource)) ≡ Some (metric_value id policy name unit resource) }
    ensures resource { (id : ℕ) (metrics : List (List ℕ × MetricId))
        → IsStrictlySortedBy (slice_cmp nat_cmp) (map (λ (metric : List ℕ × MetricId). metric.0) metrics)
        → read (compact_text (resource_value id metrics)) ≡ Some (resource_value id metrics) }
{}
