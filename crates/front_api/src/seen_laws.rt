// What seen histories keep, in the words of the subject.
ghost use Rattle.std.specs.Prelude.{◌≡◌, ◌==◌, ◌-◌, ℕ, false, List, [], ◌∷◌, ◌++◌, length, filter, Result, Ok};
ghost use Rattle.series_model.specs.declared.answer.Row.{Row};
ghost use Rattle.series_model.specs.declared.measure.Measure.{Measure};
ghost use Rattle.series_model.specs.declared.metric.MetricId.{MetricId};
ghost use Rattle.series_model.specs.declared.query.Query.{Query};
ghost use Rattle.series_model.specs.declared.ticket.Ticket.{Ticket};
ghost use Rattle.bound_series.specs.Jobs.{PreparedView};
ghost use Rattle.sack_history.specs.declared.entry.Counted.TheVariants as counted;
ghost use Rattle.sack_history.specs.declared.entry.Entry.TheVariants as entries;
ghost use Rattle.sack_history.specs.declared.fault.AnswerFault.{AnswerFault};
ghost use Rattle.sack_history.specs.declared.fault.SackFault.{SackFault};
ghost use Rattle.sack_history.specs.Answering.{answer_rows};
ghost use Rattle.sack_history.specs.Calls.{IsDraining};
ghost use Rattle.sack_history.specs.Entries.{kept};
ghost use Rattle.sack_history.specs.Legal.{IsLegal};
ghost use Rattle.sack_history.specs.Lives.{all_posts, done_of, pending_of, pending_posts};
ghost use Rattle.front_api.specs.Bench.{ClaimsWork, Commits, Releases};
ghost use Rattle.front_api.specs.Front.{AnswersQuery, Controls, Drains, Posts, Refreshes};
ghost use Rattle.front_api.specs.Seen.{IndexBook, SackBook, SeenBooks, SeesAndAdds, capped, entries_by, marked};
ghost use Rattle.front_api.specs.FaultWords.{answer_words, control_words, sack_words};
ghost use Rattle.front_api.specs.SeenLaws.{BooksGoOn, EndsWith, OfEachHistory, OfMetricHistory, SeeNoFault, TellsNoFault, WereAllOpened, WereOpened, is_turn, turns_in};
ghost use Rattle.front_api.specs.declared.bench.BenchFault.{BenchFault};
ghost use Rattle.front_api.specs.declared.bench.Claimed.{Claimed};
ghost use Rattle.front_api.specs.declared.bench.FreeFault.{FreeFault};
ghost use Rattle.front_api.specs.declared.command.Command.{Command};
ghost use Rattle.front_api.specs.declared.command.Reply.{Reply};
ghost use Rattle.front_api.specs.declared.fault.ControlFault.{ControlFault};
ghost use Rattle.front_api.specs.declared.history.IndexEntry.{IndexEntry};
ghost use Rattle.sack_history.specs.declared.entry.Entry.{Entry};

use crate::bench::Bench;

/// What a caller had seen of each book is the beginning of what it sees after a call of a front, and after
/// several.
pub fn seen_histories_go_on()
    ensures post { (metric : MetricId) (measures : List Measure) (result : Result ℕ SackFault) (old new : SeenBooks)
        → Posts metric measures result old new → BooksGoOn old new }
    ensures refresh { (metric : MetricId) (result : Result ℕ SackFault) (old new : SeenBooks)
        → Refreshes metric result old new → BooksGoOn old new }
    ensures answer { (metric : MetricId) (query : Query) (result : Result (List Row) AnswerFault) (old new : SeenBooks)
        → AnswersQuery metric query result old new → BooksGoOn old new }
    ensures drain { (result : Result ℕ SackFault) (old new : SeenBooks) → Drains result old new → BooksGoOn old new }
    ensures control { (command : Command) (result : Result Reply ControlFault) (old new : SeenBooks)
        → Controls command result old new → BooksGoOn old new }
    ensures none { (books : SeenBooks) → BooksGoOn books books }
    ensures several { (old mid new : SeenBooks) → BooksGoOn old mid → BooksGoOn mid new → BooksGoOn old new }
{}

/// The same after a call of a bench.
pub fn bench_histories_go_on<B: Bench>()
    ensures claim { (sack : ℕ) (result : Result (Claimed B.Job) SackFault) (old new : SeenBooks)
        → ClaimsWork B.as_job sack result old new → BooksGoOn old new }
    ensures commit { (prepared : PreparedView) (result : Result ℕ (BenchFault B.Starved)) (old new : SeenBooks)
        → Commits prepared result old new → BooksGoOn old new }
    ensures release { (ticket : Ticket) (result : Result (Unit {0}) FreeFault) (old new : SeenBooks)
        → Releases ticket result old new → BooksGoOn old new }
{}

/// A caller's own entries in a book are those of its calls, one call behind the other.
pub fn own_entries_come_last()
    ensures sack { (others : List (ℕ × Entry)) (own : List Entry) (old new : SackBook) → SeesAndAdds others own old new
        → entries_by new.caller new.seen ≡ entries_by old.caller old.seen ++ own }
    ensures index { (others : List (ℕ × IndexEntry)) (own : List IndexEntry) (old new : IndexBook) → SeesAndAdds others own old new
        → entries_by new.caller new.seen ≡ entries_by old.caller old.seen ++ own }
{}

/// Who calls a book that no one else calls sees its own entries, and no other.
pub fn one_caller_sees_its_own()
    ensures sack { (others : List (ℕ × Entry)) (own : List Entry) (old new : SackBook) → old.is_shared ≡ false → SeesAndAdds others own old new
        → new.seen ≡ old.seen ++ marked old.caller own }
    ensures index { (others : List (ℕ × IndexEntry)) (own : List IndexEntry) (old new : IndexBook) → old.is_shared ≡ false → SeesAndAdds others own old new
        → new.seen ≡ old.seen ++ marked old.caller own }
{}

/// The turns that a drain tells are the entries of turns that it has added: those of a sack, and, up to the last
/// value of a number, the caller's own ones of all sacks.
pub fn turns_are_done_entries()
    ensures sack { (turns : ℕ) (before own : List Entry) → IsDraining (Ok turns) before own → turns ≡ length (filter is_turn own) }
    ensures all { (turns : ℕ) (old new : SeenBooks) → WereOpened old.sacks → Drains (Ok turns) old new
        → turns ≡ capped (turns_in new.sacks - turns_in old.sacks) }
{}

/// What a call of a front that answers Ok has done, in the history of the metric's sack up to the call's own last
/// entry: a post stands in it once, with its number, and is the last entry; nothing of a refreshed metric waits, and
/// its done number is the one that was given; rows are what grouping from scratch gives; after a drain nothing
/// waits in any sack.
pub fn acknowledged_work_is_done()
    ensures posted { (metric : MetricId) (measures : List Measure) (number : ℕ) (old new : SeenBooks)
        → Posts metric measures (Ok number) old new
        → OfMetricHistory metric (λ h. filter (λ p. p.number == number) (all_posts (kept h))
        ≡ record { number = number; metric = metric; measures = measures } ∷ []) new }
    ensures posted_last { (metric : MetricId) (measures : List Measure) (number : ℕ) (old new : SeenBooks)
        → Posts metric measures (Ok number) old new
        → OfMetricHistory metric (λ h. EndsWith h (entries.Counted (counted.Post number metric measures))) new }
    ensures refreshed { (metric : MetricId) (done : ℕ) (old new : SeenBooks)
        → Refreshes metric (Ok done) old new
        → OfMetricHistory metric (λ h. (pending_of metric (kept h) ≡ []) × (done ≡ done_of metric (kept h))) new }
    ensures answered { (metric : MetricId) (query : Query) (rows : List Row) (old new : SeenBooks)
        → AnswersQuery metric query (Ok rows) old new
        → OfMetricHistory metric (λ h. rows ≡ answer_rows metric query (kept h)) new }
    ensures drained { (turns : ℕ) (old new : SeenBooks)
        → Drains (Ok turns) old new → OfEachHistory (λ h. pending_posts (kept h) ≡ []) new.sacks }
{}

/// A call of a front answers that a disk failed, or that bytes were damaged, only where it adds a fault to a history. So
/// where no fault is seen of any book behind the call, it answers neither; and where none is seen, none was.
pub fn what_failed_is_seen()
    ensures post { (metric : MetricId) (measures : List Measure) (result : Result ℕ SackFault) (old new : SeenBooks)
        → WereAllOpened old → Posts metric measures result old new → SeeNoFault new → TellsNoFault sack_words result }
    ensures refresh { (metric : MetricId) (result : Result ℕ SackFault) (old new : SeenBooks)
        → WereAllOpened old → Refreshes metric result old new → SeeNoFault new → TellsNoFault sack_words result }
    ensures answer { (metric : MetricId) (query : Query) (result : Result (List Row) AnswerFault) (old new : SeenBooks)
        → WereAllOpened old → AnswersQuery metric query result old new → SeeNoFault new → TellsNoFault answer_words result }
    ensures drain { (result : Result ℕ SackFault) (old new : SeenBooks)
        → WereAllOpened old → Drains result old new → SeeNoFault new → TellsNoFault sack_words result }
    ensures control { (command : Command) (result : Result Reply ControlFault) (old new : SeenBooks)
        → WereAllOpened old → Controls command result old new → SeeNoFault new → TellsNoFault control_words result }
    ensures earlier { (old new : SeenBooks) → BooksGoOn old new → SeeNoFault new → SeeNoFault old }
    ensures later { (old new : SeenBooks) → BooksGoOn old new → WereAllOpened old → WereAllOpened new }
{}
