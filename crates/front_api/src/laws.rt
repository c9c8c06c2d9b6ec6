// What the maps and the histories keep, in the words of the subject.
ghost use Rattle.std.specs.Prelude.{◌≡◌, ◌≢◌, ℕ, ◌+◌, ◌<◌, List, [], ◌∷◌, ◌++◌, Option, Result, Err, false};
ghost use Rattle.archive_policy.specs.Policies.{ArchivePolicy};
ghost use Rattle.policy_rules.specs.declared.rule.Rule.{Rule};
ghost use Rattle.series_model.specs.declared.metric.MetricId.{MetricId};
ghost use Rattle.front_api.specs.Calls.{AddsTo, AppliesTo, BeginsOn, IsAdded, IsApplied, IsBegun};
ghost use Rattle.front_api.specs.IndexHistory.{IsLegalIndex, MayAllCount, MayCount, index_kept, maps_of, state_of};
ghost use Rattle.front_api.specs.Laws.{ChangesMetrics, ChangesPolicies, ChangesResources, ChangesRules};
ghost use Rattle.front_api.specs.Maps.{AreSorted, Maps, after_all, after_counted, id_of, is_drawn, new_maps};
ghost use Rattle.front_api.specs.Replies.{GetsNone, GetsPolicy};
ghost use Rattle.front_api.specs.declared.command.Command.{Command};
ghost use Rattle.front_api.specs.declared.command.MetricDoc.{MetricDoc};
ghost use Rattle.front_api.specs.declared.command.Reply.{Reply};
ghost use Rattle.front_api.specs.declared.fault.ControlFault.{ControlFault};
ghost use Rattle.front_api.specs.declared.history.IndexCounted.{IndexCounted};
ghost use Rattle.front_api.specs.declared.history.IndexCounted.TheVariants as counted;
ghost use Rattle.front_api.specs.declared.history.IndexEntry.{IndexEntry};

use policy_rules::one_choice;

/// In the maps of a new store names and identifiers are distinct and rise, and they stay so, whatever counts.
pub fn maps_are_sorted()
    ensures first { (number : ℕ) → AreSorted (new_maps number) }
    ensures stay { (m : Maps) (cs : List IndexCounted) → AreSorted m → AreSorted (after_all m cs) }
{}

/// What is put in or dropped changes its own key, and no other.
pub fn one_key_changes()
    ensures policies { (policies : List ArchivePolicy) → ChangesPolicies policies }
    ensures rules { (rules : List Rule) → ChangesRules rules }
    ensures metrics { (metrics : List MetricDoc) → ChangesMetrics metrics }
    ensures resources { (resources : List ℕ) → ChangesResources resources }
{}

/// What counts in a legal history may count where it stands, and amounts to the maps after it.
pub fn legal_history_counts()
    ensures counts { (first : Maps) (h : List IndexEntry) → IsLegalIndex first h → MayAllCount first (index_kept h) }
    ensures maps { (first : Maps) (h : List IndexEntry) → IsLegalIndex first h → (state_of first h).maps ≡ maps_of first h }
{}

/// Each call leaves a legal history.
pub fn calls_are_legal()
    ensures apply { (command : Command) (first : Maps) (h own : List IndexEntry) (result : Result Reply ControlFault)
        → IsLegalIndex first h → IsApplied command first h own result → IsLegalIndex first (h ++ own) }
    ensures begin_metric { (policy name : Option (List ℕ)) (resource : Option ℕ) (first : Maps) (h own : List IndexEntry) (result : Result (MetricId × ArchivePolicy) ControlFault)
        → IsLegalIndex first h → IsBegun policy name resource first h own result → IsLegalIndex first (h ++ own) }
    ensures add_metric { (doc : MetricDoc) (first : Maps) (h own : List IndexEntry) (result : Result (Unit {0}) ControlFault)
        → IsLegalIndex first h → IsAdded doc first h own result → IsLegalIndex first (h ++ own) }
{}

/// A call that is refused on these maps leaves them as they are.
pub fn refused_changes_nothing()
    ensures apply { (command : Command) (m : Maps) (own : List IndexEntry) (fault : ControlFault)
        → AppliesTo command m own (Err fault) → maps_of m own ≡ m }
    ensures begin_metric { (policy name : Option (List ℕ)) (resource : Option ℕ) (m : Maps) (own : List IndexEntry) (fault : ControlFault)
        → BeginsOn policy name resource m own (Err fault) → maps_of m own ≡ m }
    ensures add_metric { (doc : MetricDoc) (m : Maps) (own : List IndexEntry) (fault : ControlFault)
        → AddsTo doc m own (Err fault) → maps_of m own ≡ m }
{}

/// An identifier that is drawn was not drawn before, and of two that may be drawn one after the other, with
/// anything between them, the later is another one.
pub fn what_is_drawn_is_new()
    ensures new { (m : Maps) (counter : ℕ) → MayCount m (counted.Draw counter) → is_drawn m (id_of m.number counter) ≡ false }
    ensures rise { (m : Maps) (front between rest : List IndexCounted) (earlier later : ℕ)
        → MayAllCount m (front ++ counted.Draw earlier ∷ (between ++ counted.Draw later ∷ rest)) → earlier < later }
{}

/// A new metric gets at most one policy, and not both one and none.
pub fn one_policy_given()
    ensures one { (rules : List Rule) (policy name : Option (List ℕ)) (got other : List ℕ)
        → GetsPolicy rules policy name got → GetsPolicy rules policy name other → got ≡ other }
    ensures not_none { (rules : List Rule) (policy name : Option (List ℕ)) (got : List ℕ)
        → GetsPolicy rules policy name got → GetsNone rules policy name → ⊥ }
{
    one_choice();
}
