// What is true of queries.
ghost use Rattle.std.specs.Prelude.{◌≡◌, [], List};
ghost use Rattle.std.specs.List.Sorted.{IsPermutation};
ghost use Rattle.measure_query.specs.declared.query.Asked.{Asked};
ghost use Rattle.measure_query.specs.Key.{Pair, pairs_of};
ghost use Rattle.measure_query.specs.Query.{IsAsked, IsNoQuery, everything};

/// Pairs ask for one thing.
pub fn one_query()
    ensures { (pairs : List Pair) (a b : Asked) → IsAsked pairs a → IsAsked pairs b → a ≡ b }
{}

/// What asks for something is a query.
pub fn never_both()
    ensures { (pairs : List Pair) (asked : Asked) → IsAsked pairs asked → ¬ IsNoQuery pairs }
{}

/// The order of the pairs doesn't matter.
pub fn any_order()
    ensures { (pairs others : List Pair) (asked : Asked) → IsPermutation pairs others
        → IsAsked pairs asked → IsAsked others asked }
{}

/// An empty text asks for the mean of everything.
pub fn empty_asks_for_all()
    ensures { IsAsked (pairs_of []) everything }
{}
