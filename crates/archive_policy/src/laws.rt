// What the definitions amount to, in the words of the subject.
ghost use Rattle.std.specs.Prelude.{◌≡◌, ℕ, List, Option, Some, None, map};
ghost use Rattle.archive_policy.specs.declared.kind.Kind.{Kind};
ghost use Rattle.archive_policy.specs.declared.wanted.Wanted.{Wanted};
ghost use Rattle.archive_policy.specs.declared.fault.PolicyFault.{PolicyFault};
ghost use Rattle.archive_policy.specs.Faults.{Holds, IsFirst, first_fault};
ghost use Rattle.archive_policy.specs.Kinds.{kind_index, kind_name};
ghost use Rattle.archive_policy.specs.Names.{IsName};
ghost use Rattle.archive_policy.specs.Policies.{ArchivePolicy, IsArchivePolicy, policy_of};
ghost use Rattle.archive_policy.specs.PolicyLaws.{IsAsked, as_kept};

/// The fault that is told holds over the whole list, and none before it does; none is told exactly
/// where none holds.
pub fn fault_is_first()
    ensures told { (back_window : ℕ) (wanted : List Wanted) (kinds : List Kind) (fault : PolicyFault)
        → first_fault back_window wanted kinds ≡ Some fault → IsFirst back_window wanted kinds fault }
    ensures none { (back_window : ℕ) (wanted : List Wanted) (kinds : List Kind)
        → first_fault back_window wanted kinds ≡ None
        → (fault : PolicyFault) → ¬ Holds back_window wanted kinds fault }
{}

/// Where no fault holds, the policy is a valid one of what was asked for.
pub fn policy_is_asked()
    ensures { (name : List ℕ) (back_window : ℕ) (wanted : List Wanted) (kinds : List Kind)
        → IsName name → first_fault back_window wanted kinds ≡ None
        → IsAsked name back_window wanted kinds (policy_of name back_window wanted kinds) }
{}

/// What is asked for determines the policy.
pub fn one_policy()
    ensures { (name : List ℕ) (back_window : ℕ) (wanted : List Wanted) (kinds : List Kind) (p q : ArchivePolicy)
        → IsAsked name back_window wanted kinds p → IsAsked name back_window wanted kinds q → p ≡ q }
{}

/// Each policy can be asked for: asked for as it is kept, it has no fault and is made as it is.
pub fn policy_again()
    ensures none { (p : ArchivePolicy) → IsArchivePolicy p
        → first_fault p.back_window (map as_kept p.definitions) p.kinds ≡ None }
    ensures same { (p : ArchivePolicy) → IsArchivePolicy p
        → policy_of p.name p.back_window (map as_kept p.definitions) p.kinds ≡ p }
{}

/// No two kinds have one name or one place.
pub fn kinds_are_told_apart()
    ensures name { (a b : Kind) → kind_name a ≡ kind_name b → a ≡ b }
    ensures place { (a b : Kind) → kind_index a ≡ kind_index b → a ≡ b }
{}
