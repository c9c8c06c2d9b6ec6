// What is true of scripts. These do nothing when they run.
ghost use Rattle.std.specs.Prelude.{◌≡◌, ◌≢◌, ◌<◌, ◌^◌, ◌⊎◌, ℕ, List, Option, Some, codes, length};
ghost use Rattle.front_api.specs.Seen.{SeenBooks};
ghost use Rattle.front_api.specs.SeenLaws.{BooksGoOn, SeeNoFault, WereAllOpened};
ghost use Rattle.series_model.specs.declared.metric.MetricId.{MetricId};
ghost use Rattle.rest_script.specs.declared.script_end.ScriptEnd.{ScriptEnd};
ghost use Rattle.rest_script.specs.Laws.{AreAnswered, AreAvailable, BeginsAvailable, PostsLine, StandsOnce};
ghost use Rattle.rest_script.specs.Lines.{AreLines, AreUnfinished};
ghost use Rattle.rest_script.specs.Replying.{AnswersLines, Replies};
ghost use Rattle.rest_script.specs.Serving.{ServesScript, Transcribes};

use front_api::{Front, seen_histories_go_on, what_failed_is_seen};
use rest_api::{accepted_batches_stand, requests_go_on, without_faults_available};

/// Bytes are lines in one way, and bytes that are lines aren't lines and a part of one.
pub fn one_list_of_lines()
    ensures finished { (bytes : List ℕ) (one other : List (List ℕ)) → AreLines bytes one → AreUnfinished bytes other → ⊥ }
    ensures one { (bytes : List ℕ) (one other : List (List ℕ)) → AreLines bytes one → AreLines bytes other → one ≡ other }
{}

/// A script of whole lines, of fewer than 2^40 bytes, is answered to its end, but where the source or the
/// sink failed, or memory was wanting; one that goes on behind its lines is refused. Where a script was
/// answered to its end, its lines are the input's, and all of their replies were written.
pub fn whole_scripts_are_answered<F: Front>()
    ensures complete { (old new : F) (input : List ℕ) (lines : List (List ℕ)) (left taken_before taken_after : Option (List ℕ)) (end : ScriptEnd)
        → ServesScript F.stands old new (Some input) left taken_before taken_after end → AreLines input lines → length input < 2 ^ 40
        → end ≢ ScriptEnd.ReadFault → end ≢ ScriptEnd.WriteFault → end ≢ ScriptEnd.Memory → end ≡ ScriptEnd.Ended }
    ensures refused { (old new : F) (input : List ℕ) (lines : List (List ℕ)) (left taken_before taken_after : Option (List ℕ)) (end : ScriptEnd)
        → ServesScript F.stands old new (Some input) left taken_before taken_after end → AreUnfinished input lines → length input < 2 ^ 40
        → end ≢ ScriptEnd.ReadFault → end ≢ ScriptEnd.WriteFault → end ≢ ScriptEnd.Memory → (end ≡ ScriptEnd.TooLong) ⊎ (end ≡ ScriptEnd.Cut) }
    ensures ended { (old new : F) (input : List ℕ) (left taken_before taken_after : Option (List ℕ))
        → ServesScript F.stands old new (Some input) left taken_before taken_after ScriptEnd.Ended
        → AreAnswered F.stands old new input taken_before taken_after }
{}

/// What was seen of each book before some lines is the beginning of what is seen behind them.
pub fn lines_go_on()
    ensures { (lines : List (List ℕ)) (text : List ℕ) (old new : SeenBooks) → AnswersLines lines text old new → BooksGoOn old new }
{
    seen_histories_go_on();
    requests_go_on();
}

/// A batch whose line is answered 202 stands once in the history of the metric's sack, with a number of its
/// own.
pub fn accepted_lines_stand()
    ensures { (line body : List ℕ) (metric : MetricId) (old new : SeenBooks)
        → PostsLine line metric body → Replies line (codes "202\n") old new → StandsOnce metric body new }
{
    accepted_batches_stand();
}

/// Where no fault is seen of any book, no line is answered 503.
pub fn without_faults_answered()
    ensures { (lines : List (List ℕ)) (behind : List ℕ) (end : ScriptEnd) (answered last : List ℕ) (old new : SeenBooks)
        → WereAllOpened old → SeeNoFault new → Transcribes lines behind end answered last old new
        → AreAvailable lines answered × BeginsAvailable last }
{
    what_failed_is_seen();
    without_faults_available();
    lines_go_on();
    seen_histories_go_on();
    requests_go_on();
}
