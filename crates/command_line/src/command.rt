// The commands.
ghost use Rattle.std.specs.Prelude.{◌≡◌, ◌↔◌, IsTrue, IfOk, MatchResult, All};
ghost use Rattle.command_line.specs.declared.command.Command.{Command as A_Command};
ghost use Rattle.command_line.specs.Command.{IsCommand};
ghost use Rattle.command_line.specs.Setting.{settings_of, texts};
ghost use Rattle.command_line.specs.Verb.{takes};

use crate::fault::PlanFault;
use crate::home::Home;
use crate::make::make_command;
use crate::setting::{Chosen, read_settings};
use crate::text::Text;
use crate::verb::{Verb, takes, verb_of};
use std::alloc::Global;

/// What is to be done.
#[derive(Debug, Drop)]
pub enum Command {
    /// To make an empty store.
    Create {
        folder: Text,
        sacks: u16,
        number: u32,
    },
    /// To answer script lines.
    Replay {
        home: Home,
        sacks: u16,
        number: u32,
    },
    /// To serve the input as one connection.
    ReplayHttp {
        home: Home,
        sacks: u16,
        number: u32,
    },
    /// To count what a store has.
    Check {
        folder: Text,
        sacks: u16,
    },
    /// To run generated posts over a store in memory.
    Load {
        seed: u64,
        count: u16,
        sacks: u16,
    },
    /// To run generated events.
    Drill {
        seed: u64,
        count: u16,
    },
    /// To serve connections.
    Serve {
        home: Home,
        sacks: u16,
        number: u32,
        listen: Text,
        workers: u16,
        conns: u16,
    },
}

/// The command of these words. The first names it. The others are its options in any order, each at
/// most once, as `--x v` or `--x=v`, but for `--memory` alone. A value isn't empty and doesn't begin
/// with `-`; a number is in decimal digits, without a 0 in front but for `0`.
pub fn read_command(alloc: Global, words: &[String]) -> Result<Command, PlanFault>
    // What is read is the command of the words; their command is read, unless memory runs out.
    ensures ok { IfOk result (IsCommand (texts words.now)) }
    ensures only { (command : A_Command) → IsCommand (texts words.now) command
        → MatchResult result (λ read. read ≡ command) (λ fault. fault ≡ PlanFault.Memory) }
    // Words that are refused are no command.
    ensures usage { result ≡ Err PlanFault.Usage
        → (command : A_Command) → ¬ IsCommand (texts words.now) command }
{
    let [word, options @ ..] = words else {
        return Err(PlanFault::Usage);
    };
    let Some(verb) = verb_of(word.as_bytes()) else {
        return Err(PlanFault::Usage);
    };
    let chosen = read_settings(alloc, options)?;
    if !are_taken(verb, &chosen) {
        return Err(PlanFault::Usage);
    }
    make_command(alloc, verb, &chosen)
}

/// Whether the command takes each of these options.
fn are_taken(verb: Verb, chosen: &[Chosen]) -> bool
    ensures { IsTrue result ↔ All (λ setting. IsTrue (takes verb setting.flag)) chosen.now }
{
    chosen.iter().all(|setting| takes(verb, setting.flag))
}
