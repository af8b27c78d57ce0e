//! Whether one worker can serve what the words ask.
ghost use Rattle.std.specs.Prelude.{◌≡◌, IfOk, IsTrue, map, string_bytes};
ghost use Rattle.std.specs.Option.{option_map};
ghost use Rattle.fossil.specs.Served.{AreStaffed, serving_of};

use fsl_text::Memory;
use fsl_words::{Command, WordsFault, read};
use std::alloc::Global;

/// How many workers a command asks for, where it is a serve.
fn workers_of(command: &Command) -> Option<u64>
    ensures { result ≡ option_map (λ s. s.workers) (serving_of command.now) }
{
    match command {
        Command::Serve { workers, .. } => Some(*workers),
        _ => None,
    }
}

/// Whether the words ask for one worker, or for none since they are no serve.
pub fn is_for_one(alloc: Global, words: &[String]) -> Result<bool, Memory>
    ensures { IfOk result (λ one. IsTrue one → AreStaffed (map string_bytes words.now) 1) }
{
    match read(alloc, words) {
        Ok(words) => match workers_of(&words.command) {
            Some(workers) => Ok(workers == 1),
            None => Ok(true),
        },
        Err(WordsFault::Usage) => Ok(true),
        Err(WordsFault::Memory) => Err(Memory),
    }
}
