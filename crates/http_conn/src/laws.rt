// Laws of the words that the contracts cite. They do nothing when they run.
ghost use Rattle.std.specs.Prelude.{◌≡◌, ℕ, List, ◌++◌, length, take, drop, Some, Result};
ghost use Rattle.http_conn.specs.declared.head.Head.{Head};
ghost use Rattle.http_conn.specs.declared.head.HeadEnd.{HeadEnd};
ghost use Rattle.http_conn.specs.Bytes.{Held, GivesOut};
ghost use Rattle.http_conn.specs.Answer.{Answers, Agree};

/// One input has one answer, so it doesn't matter in which pieces it comes.
pub fn one_answer()
    ensures { (given : ℕ) (input rest more : List ℕ) (one other : Result Head HeadEnd)
        → Answers given input one rest → Answers given input other more → Agree given input one rest other more }
{}

/// What is given out is the front of what was to come, and what follows it is still to come: no
/// byte is given twice, and none is lost.
pub fn front_first()
    ensures { (old new : Held) (before after out : List ℕ) → GivesOut old new (Some before) (Some after) out
        → (out ≡ take (length out) (old.bytes ++ before)) × (new.bytes ++ after ≡ drop (length out) (old.bytes ++ before)) }
{}
