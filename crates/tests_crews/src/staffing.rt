//! Whether two workers are those that the words ask for.
ghost use Rattle.std.specs.Prelude.{◌≡◌, IsTrue, map, string_bytes};
ghost use Rattle.std.specs.Option.{option_map};
ghost use Rattle.fossil.specs.Served.{AreStaffed, serving_of};

use fsl_words::{Command, read};
use std::alloc::Global;

/// How many workers a command asks for, where it is a serve.
fn workers_of(command: &Command) -> Option<u64>
    ensures { result ≡ option_map (λ s. s.workers) (serving_of command.now) }
{
    match command {
        Command::Serve { workers, .. } => Some(*workers),
        _ => None,
    }
}

/// Whether the words are a serve by two workers.
pub fn is_for_two(alloc: Global, words: &[String]) -> bool
    ensures { IsTrue result → AreStaffed (map string_bytes words.now) 2 }
{
    match read(alloc, words) {
        Ok(words) => {
            let workers = workers_of(&words.command);
            drop(words);
            match workers {
                Some(workers) => workers == 2,
                None => false,
            }
        }
        Err(_) => false,
    }
}
