// What is true of words, numbers and disks.
ghost use Rattle.std.specs.Prelude.{◌≡◌, ◌≢◌, ◌↔◌, ℕ, ◌+◌, ◌*◌, ◌^◌, ◌<◌, ◌≤◌, List, ◌∷◌, ◌++◌, Some, length, AllPairs};
ghost use Rattle.std.specs.Fmt.{decimal};
ghost use Rattle.std.specs.List.Sorted.{IsPermutation};
ghost use Rattle.command_line.specs.declared.command.Command.{Command};
ghost use Rattle.command_line.specs.declared.flag.Flag.{Flag};
ghost use Rattle.command_line.specs.Command.{IsCommand};
ghost use Rattle.command_line.specs.Number.{number_within};
ghost use Rattle.command_line.specs.Plan.{store_disks};
ghost use Rattle.command_line.specs.Setting.{IsSpelling, Setting, Spells};

/// Words are one command.
pub fn one_command()
    ensures { (words : List (List ℕ)) (a b : Command) → IsCommand words a → IsCommand words b → a ≡ b }
{}

/// The order of the options doesn't matter: words that spell the same settings in another order are
/// the same command.
pub fn any_order()
    ensures { (verb : List ℕ) (settings others : List Setting) (words more : List (List ℕ)) (command : Command)
        → Spells settings words → Spells others more → IsPermutation settings others
        → IsCommand (verb ∷ words) command → IsCommand (verb ∷ more) command }
{}

/// Both spellings of an option read the same, wherever they stand.
pub fn both_spellings()
    ensures { (verb value : List ℕ) (flag : Flag) (before one other after : List (List ℕ)) (command : Command)
        → IsSpelling flag value one → IsSpelling flag value other
        → IsCommand (verb ∷ (before ++ (one ++ after))) command
        → IsCommand (verb ∷ (before ++ (other ++ after))) command }
{}

/// What spells a number within limits is the decimal text of one.
pub fn numbers_are_decimals()
    ensures { (least most number : ℕ) (word : List ℕ) → most < 2 ^ 64
        → (number_within least most word ≡ Some number)
        ↔ ((word ≡ decimal number) × (least ≤ number) × (number ≤ most)) }
{}

/// A store has two disks, and five for each sack.
pub fn five_disks_a_sack()
    ensures { (front : List ℕ) (sacks : ℕ) → length (store_disks front sacks) ≡ 2 + 5 * sacks }
{}

/// The disks of a store have different names.
pub fn distinct_disks()
    ensures { (front : List ℕ) (sacks : ℕ) → sacks < 2 ^ 64
        → AllPairs (λ a b. a ≢ b) (store_disks front sacks) }
{}
