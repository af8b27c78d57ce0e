//! Reads a command and the words behind it.
ghost use Rattle.std.specs.Prelude.{◌≡◌, map, string_bytes};
ghost use Rattle.fsl_words.specs.Grammar.{init_command, serve_command, gen_of, gen_command, login_in, served_in, pull_command, push_command, clone_command, parent_in, checkin_command, uv_init_command, tickets_command, bare_question, bare_command, question_in, other_command, worded_command, plain_command, command_in};
ghost use Rattle.fsl_words.specs.Answers.{IsAnswer};

use crate::fields::fields;
use crate::forms::{name, number, path, prefix};
use crate::{Command, Question, Unversioned, WordsFault};
use fsl_text::Text;
use std::alloc::Global;

/// The greatest number of rows of the timeline that may be asked for.
const MOST_ROWS: u64 = 1_000_000;

/// The greatest number of workers that serve.
const MOST_WORKERS: u64 = 16;

/// The greatest number of connections that one worker takes.
const MOST_REQUESTS: u64 = 65_536;

/// The greatest number of artifacts that are generated.
const MOST_GENERATED: u64 = 100_000;

/// `init` with its words.
fn init_command(alloc: Global, words: &[String]) -> Result<Command, WordsFault>
    ensures { IsAnswer (init_command (map string_bytes words.now)) result }
{
    let [project, server, rest @ ..] = words else {
        return Err(WordsFault::Usage);
    };
    Ok(Command::Init {
        project: name(project.as_bytes())?,
        server: name(server.as_bytes())?,
        fields: fields(alloc, rest)?,
    })
}

/// `serve` with its words.
fn serve_command(alloc: Global, words: &[String]) -> Result<Command, WordsFault>
    ensures { IsAnswer (serve_command (map string_bytes words.now)) result }
{
    let [address, users, workers, requests] = words else {
        return Err(WordsFault::Usage);
    };
    Ok(Command::Serve {
        workers: number(workers.as_bytes(), MOST_WORKERS)?,
        requests: number(requests.as_bytes(), MOST_REQUESTS)?,
        address: Text::of(alloc, address.as_bytes())?,
        users: Text::of(alloc, users.as_bytes())?,
    })
}

/// `gen` with its number, in either order.
fn gen_of(count: &[u8], reversed: bool) -> Result<Command, WordsFault>
    ensures { IsAnswer (gen_of reversed count.now) result }
{
    Ok(Command::Gen {
        count: number(count, MOST_GENERATED)?,
        reversed,
    })
}

/// `gen` with its words: the number, and `reversed` behind it for the order from its end.
fn gen_command(words: &[String]) -> Result<Command, WordsFault>
    ensures { IsAnswer (gen_command (map string_bytes words.now)) result }
{
    match words {
        [count] => gen_of(count.as_bytes(), false),
        [count, order] if order.as_str() == "reversed" => gen_of(count.as_bytes(), true),
        _ => Err(WordsFault::Usage),
    }
}

/// The user and the secret of a login, or that there is none.
fn login(alloc: Global, words: &[String]) -> Result<Option<(Text, Text)>, WordsFault>
    ensures { IsAnswer (login_in (map string_bytes words.now)) result }
{
    match words {
        [] => Ok(None),
        [user, secret] => {
            let user = Text::of(alloc, user.as_bytes())?;
            let secret = Text::of(alloc, secret.as_bytes())?;
            Ok(Some((user, secret)))
        }
        _ => Err(WordsFault::Usage),
    }
}

/// The address of a server and the login, behind `pull` and `push`.
fn served(alloc: Global, words: &[String]) -> Result<(Text, Option<(Text, Text)>), WordsFault>
    ensures { IsAnswer (served_in (map string_bytes words.now)) result }
{
    let [address, rest @ ..] = words else {
        return Err(WordsFault::Usage);
    };
    let login = login(alloc, rest)?;
    let address = Text::of(alloc, address.as_bytes())?;
    Ok((address, login))
}

/// `pull` with its words.
fn pull_command(alloc: Global, words: &[String]) -> Result<Command, WordsFault>
    ensures { IsAnswer (pull_command (map string_bytes words.now)) result }
{
    let (address, login) = served(alloc, words)?;
    Ok(Command::Pull { address, login })
}

/// `push` with its words.
fn push_command(alloc: Global, words: &[String]) -> Result<Command, WordsFault>
    ensures { IsAnswer (push_command (map string_bytes words.now)) result }
{
    let (address, login) = served(alloc, words)?;
    Ok(Command::Push { address, login })
}

/// `clone` with its words.
fn clone_command(alloc: Global, words: &[String]) -> Result<Command, WordsFault>
    ensures { IsAnswer (clone_command (map string_bytes words.now)) result }
{
    let [address, server, rest @ ..] = words else {
        return Err(WordsFault::Usage);
    };
    Ok(Command::Clone {
        server: name(server.as_bytes())?,
        fields: fields(alloc, rest)?,
        address: Text::of(alloc, address.as_bytes())?,
    })
}

/// `-` for no parent, or a prefix.
fn parent(alloc: Global, word: &[u8]) -> Result<Option<Text>, WordsFault>
    ensures { IsAnswer (parent_in word.now) result }
{
    if word == b"-".as_slice() {
        Ok(None)
    } else {
        Ok(Some(prefix(alloc, word)?))
    }
}

/// `checkin` with its words.
fn checkin_command(alloc: Global, words: &[String]) -> Result<Command, WordsFault>
    ensures { IsAnswer (checkin_command (map string_bytes words.now)) result }
{
    let [over, user, comment] = words else {
        return Err(WordsFault::Usage);
    };
    Ok(Command::Checkin {
        parent: parent(alloc, over.as_bytes())?,
        user: Text::of(alloc, user.as_bytes())?,
        comment: Text::of(alloc, comment.as_bytes())?,
    })
}

/// `uv-init` with its words.
fn uv_init_command(words: &[String]) -> Result<Command, WordsFault>
    ensures { IsAnswer (uv_init_command (map string_bytes words.now)) result }
{
    let [project, server] = words else {
        return Err(WordsFault::Usage);
    };
    Ok(Command::Unversioned(Unversioned::Init {
        project: name(project.as_bytes())?,
        server: name(server.as_bytes())?,
    }))
}

/// `tickets` with its words: fields, or none.
fn tickets_command(alloc: Global, words: &[String]) -> Result<Command, WordsFault>
    ensures { IsAnswer (tickets_command (map string_bytes words.now)) result }
{
    let fields = fields(alloc, words)?;
    Ok(Command::Ask(Question::Tickets { fields }))
}

/// A report command without words.
fn bare_question(command: &str) -> Result<Question, WordsFault>
    ensures { IsAnswer (bare_question command.now) result }
{
    match command {
        "leaves" => Ok(Question::Leaves),
        "phantoms" => Ok(Question::Phantoms),
        "info" => Ok(Question::Info),
        "branches" => Ok(Question::Branches),
        "pages" => Ok(Question::Pages),
        "threads" => Ok(Question::Threads),
        _ => Err(WordsFault::Usage),
    }
}

/// A command without words.
fn bare_command(command: &str) -> Result<Command, WordsFault>
    ensures { IsAnswer (bare_command command.now) result }
{
    match command {
        "ingest" => Ok(Command::Ingest),
        "put" => Ok(Command::Put),
        "uv-list" => Ok(Command::Unversioned(Unversioned::List)),
        _ => Ok(Command::Ask(bare_question(command)?)),
    }
}

/// A report command with one word.
fn question(alloc: Global, command: &str, word: &[u8]) -> Result<Question, WordsFault>
    ensures { IsAnswer (question_in command.now word.now) result }
{
    Ok(match command {
        "cat" => Question::Cat {
            prefix: prefix(alloc, word)?,
        },
        "receipt" => Question::Receipt {
            prefix: prefix(alloc, word)?,
        },
        "timeline" => Question::Timeline {
            count: number(word, MOST_ROWS)?,
        },
        "tags" => Question::Tags {
            prefix: prefix(alloc, word)?,
        },
        "tip" => Question::Tip {
            symbol: Text::of(alloc, word)?,
        },
        "files" => Question::Files {
            prefix: prefix(alloc, word)?,
        },
        "wiki" => Question::Wiki {
            title: Text::of(alloc, word)?,
        },
        "ticket" => Question::Ticket {
            prefix: prefix(alloc, word)?,
        },
        "thread" => Question::Thread {
            prefix: prefix(alloc, word)?,
        },
        _ => return Err(WordsFault::Usage),
    })
}

/// A command of unversioned files or a report command, with one word.
fn other_command(alloc: Global, command: &str, word: &[u8]) -> Result<Command, WordsFault>
    ensures { IsAnswer (other_command command.now word.now) result }
{
    match command {
        "uv-add" => Ok(Command::Unversioned(Unversioned::Add {
            path: path(alloc, word)?,
        })),
        "uv-remove" => Ok(Command::Unversioned(Unversioned::Remove {
            path: path(alloc, word)?,
        })),
        "uv-cat" => Ok(Command::Unversioned(Unversioned::Cat {
            path: path(alloc, word)?,
        })),
        "uv-sync" => Ok(Command::Unversioned(Unversioned::Sync {
            peer: Text::of(alloc, word)?,
        })),
        _ => Ok(Command::Ask(question(alloc, command, word)?)),
    }
}

/// A command with one word.
fn worded_command(alloc: Global, command: &str, word: &[u8]) -> Result<Command, WordsFault>
    ensures { IsAnswer (worded_command command.now word.now) result }
{
    match command {
        "shun" => Ok(Command::Shun { name: name(word)? }),
        "unshun" => Ok(Command::Unshun { name: name(word)? }),
        "pull-local" => Ok(Command::PullLocal {
            peer: Text::of(alloc, word)?,
        }),
        "export" => Ok(Command::Export {
            prefix: prefix(alloc, word)?,
        }),
        "verify" => Ok(Command::Verify {
            prefix: prefix(alloc, word)?,
        }),
        "scrub" => Ok(Command::Scrub {
            peer: Text::of(alloc, word)?,
        }),
        _ => other_command(alloc, command, word),
    }
}

/// A command with at most one word.
fn plain_command(alloc: Global, command: &str, words: &[String]) -> Result<Command, WordsFault>
    ensures { IsAnswer (plain_command command.now (map string_bytes words.now)) result }
{
    match words {
        [] => bare_command(command),
        [word] => worded_command(alloc, command, word.as_bytes()),
        _ => Err(WordsFault::Usage),
    }
}

/// Reads a command from its name and the words behind it.
///
/// Errors: `Usage` exactly where they are outside the grammar of commands; `Memory` where the program is out of memory.
pub fn command(alloc: Global, command: &str, words: &[String]) -> Result<Command, WordsFault>
    ensures { IsAnswer (command_in command.now (map string_bytes words.now)) result }
{
    match command {
        "init" => init_command(alloc, words),
        "serve" => serve_command(alloc, words),
        "gen" => gen_command(words),
        "pull" => pull_command(alloc, words),
        "push" => push_command(alloc, words),
        "clone" => clone_command(alloc, words),
        "checkin" => checkin_command(alloc, words),
        "uv-init" => uv_init_command(words),
        "tickets" => tickets_command(alloc, words),
        _ => plain_command(alloc, command, words),
    }
}
