// What the definitions amount to, in the words of the subject.
ghost use Rattle.std.specs.Prelude.{◌≡◌, ℕ, List};
ghost use Rattle.policy_rules.specs.declared.rule.Rule.{Rule};
ghost use Rattle.policy_rules.specs.Choice.{IsChosen};

/// At most one rule is chosen.
pub fn one_choice()
    ensures { (rules : List Rule) (name : List ℕ) (i k : ℕ)
        → IsChosen rules name i → IsChosen rules name k → i ≡ k }
{}
