//! Limits that several rooms share. Each is written here once, and definitions name the ones that they use (`specs/Limits.antt`).
ghost use Rattle.std.specs.Prelude.{◌≡◌};
ghost use Rattle.fsl_text.specs.Limits.{most_of_artifact, most_of_message, most_held_bytes, most_names, most_of_users};

/// The most bytes of an artifact.
pub const MOST_OF_ARTIFACT: u64 = 1 << 24;

/// The most bytes of a message that a command reads, and of a body that a request or a reply sends.
pub const MOST_OF_MESSAGE: u64 = 1 << 27;

/// The most bytes of all artifacts that a repository holds.
pub const MOST_HELD_BYTES: u128 = 1 << 30;

/// The most names that a repository holds, and the most that it lacks.
pub const MOST_NAMES: u64 = 1 << 20;

/// The most bytes of a users file.
pub const MOST_OF_USERS: usize = 1 << 20;

/// The most fields of tickets that a repository has.
pub const MOST_FIELDS: usize = 256;

/// The most bytes of a path of an unversioned file.
pub const MOST_OF_PATH: usize = 512;

/// The bytes that a reply or a request gives to the files that it sends. The file that passes them is the last.
pub const BUDGET: u64 = 1_000_000;

/// The bytes that a file counts of the budget beside its content.
pub const SHARE: u64 = 64;

/// The most notices that a reply has in one message.
pub const MOST_NOTICES: usize = 100;

/// The most rounds of a sync.
pub const MOST_ROUNDS: u64 = 100_000;

/// Says that these constants are the limits of the definitions.
pub fn limits_are_those_of_the_definitions()
    ensures artifact { MOST_OF_ARTIFACT ≡ most_of_artifact }
    ensures message { MOST_OF_MESSAGE ≡ most_of_message }
    ensures held { MOST_HELD_BYTES ≡ most_held_bytes }
    ensures names { MOST_NAMES ≡ most_names }
    ensures users { MOST_OF_USERS ≡ most_of_users }
{}
