//! Runs a command over whatever source, sink and disk it is handed.
ghost use Rattle.std.specs.Prelude.{◌≡◌, false};
ghost use Rattle.fsl_artifact.specs.Kind.{IsKind, IsOneAtMost};
ghost use Rattle.fossil.specs.Outcome.{HasOneOutcome, HasSomeOutcome};
ghost use Rattle.fsl_words.specs.declared.Command.TheVariants as command_of;
ghost use Rattle.fossil.specs.Uses.{command_reads, command_opens, command_meets, command_asks_peer, command_dials, command_ticks};
ghost use Rattle.fossil.specs.Run.{reads_input, opens_file, asks_clock};
ghost use Rattle.fossil.specs.Acts.{IsObeyable};
ghost use Rattle.fossil.specs.SyncLaws.{HasOneSyncOutcome, HasSomeSyncOutcome};
ghost use Rattle.fossil.specs.CloneLaws.{HasOneCloneOutcome, HasSomeCloneOutcome};
ghost use Rattle.fossil.specs.Synced.{asks_peer, dials};
ghost use Rattle.fossil.specs.UvSyncs.{HasOneUvSync, HasSomeUvSync};
ghost use Rattle.fossil.specs.UvMerging.{MergesFor, MergesAs};
ghost use Rattle.fossil.specs.Scrubs.{HasOneScrub, HasSomeScrub};
ghost use Rattle.fossil.specs.ScrubCall.{ScrubsFor, ScrubsAs};
ghost use Rattle.fossil.specs.RunCall.{texts, RunsCommand, RunsFor, SyncsFor, ClonesFor, RunsAlone, SyncsAs, ClonesAs};

use crate::answers::due::{answered, print_due};
use crate::answers::fault::Fault;
use crate::commands::checkin::{NewCheckin, checkin};
use crate::commands::clone::clone_onto;
use crate::commands::generating::generate;
use crate::commands::ingest::ingest;
use crate::commands::init::init;
use crate::commands::pull_local::pull_local;
use crate::commands::put::put;
use crate::commands::question::answer_question;
use crate::commands::scrub::scrub;
use crate::commands::shun::shun;
use crate::commands::sync::{Way, sync};
use crate::commands::trees::{export_tree, verify_tree};
use crate::commands::unshun::unshun;
use crate::commands::unversioned::unversioned;
use crate::commands::uv_sync::uv_sync;
use crate::ran::{Done, Ran};
use fsl_disk::Disk;
use fsl_outside::{Clock, Dial, Sink, Source};
use fsl_record::Config;
use fsl_words::{Command, Unversioned, WordsFault, read};
use std::alloc::Global;

/// Does what a command says that meets no peer, prints what it comes to, and gives the status and the disk.
fn obey<S: Source, C: Clock, K: Sink, D: Disk>(
    alloc: Global,
    command: Command,
    input: &mut S,
    clock: &mut C,
    out: &mut K,
    repo: D,
) -> Done<D>
    requires obeyable { IsObeyable command }
    requires alone { command_meets command ≡ false }
    ensures runs { RunsCommand command (S.state, input.old, input.new) (C.told, clock.old, clock.new) (K.state, out.old, out.new) (D.state, repo) result }
    ensures unread { command_reads command ≡ false → input.new ≡ input.old }
    ensures unasked_clock { command_ticks command ≡ false → clock.new ≡ clock.old }
    ensures untouched { command_opens command ≡ false → result.repo ≡ repo }
{
    let mut repo = repo;
    match command {
        Command::Init {
            project,
            server,
            fields,
        } => {
            let config = Config {
                project,
                server,
                fields,
            };
            let status = print_due(out, init(alloc, &config, &mut repo));
            Done { status, repo }
        }
        Command::Ingest => {
            let status = print_due(out, ingest(alloc, input));
            Done { status, repo }
        }
        Command::Put => {
            let (answer, repo) = put(alloc, input, clock, repo);
            let status = print_due(out, answer);
            Done { status, repo }
        }
        Command::Shun { name } => {
            let (answer, repo) = shun(alloc, name, repo);
            let status = print_due(out, answer);
            Done { status, repo }
        }
        Command::Unshun { name } => {
            let (answer, repo) = unshun(alloc, name, repo);
            let status = print_due(out, answer);
            Done { status, repo }
        }
        Command::Ask(question) => answer_question(alloc, &question, out, repo),
        Command::Checkin {
            parent,
            user,
            comment,
        } => {
            let asked = NewCheckin {
                parent,
                user,
                comment,
            };
            let (answer, repo) = checkin(alloc, &asked, input, clock, repo);
            drop(asked);
            let status = print_due(out, answer);
            Done { status, repo }
        }
        Command::Export { prefix } => {
            let (answer, repo) = export_tree(alloc, &prefix, repo);
            let status = print_due(out, answer);
            Done { status, repo }
        }
        Command::Verify { prefix } => {
            let (answer, repo) = verify_tree(alloc, &prefix, repo);
            let status = print_due(out, answer);
            Done { status, repo }
        }
        Command::Serve { .. } => {
            let status = print_due(out, Err(Fault::Usage));
            Done { status, repo }
        }
        Command::Unversioned(asked) => {
            let (answer, repo) = unversioned(alloc, asked, input, clock, repo);
            let status = print_due(out, answer);
            Done { status, repo }
        }
        Command::Gen { count, reversed } => {
            let status = print_due(out, answered(generate(alloc, count, reversed)));
            Done { status, repo }
        }
        Command::Pull { .. } => unreachable!(),
        Command::Push { .. } => unreachable!(),
        Command::Clone { .. } => unreachable!(),
        Command::PullLocal { .. } => unreachable!(),
        Command::Scrub { .. } => unreachable!(),
    }
}

/// Does what a command of unversioned files says, prints what it comes to, and gives the status and the disks.
fn start_unversioned<S: Source, K: Sink, D: Disk, P: Disk, C: Clock>(
    alloc: Global,
    asked: Unversioned,
    input: &mut S,
    out: &mut K,
    repo: D,
    peer: P,
    clock: &mut C,
) -> Ran<D, P>
    requires { IsObeyable (command_of.Unversioned asked) }
    ensures runs { RunsFor (command_of.Unversioned asked) (S.state, input.old, input.new) (C.told, clock.old, clock.new) (K.state, out.old, out.new) (D.state, repo) result }
    ensures merged { MergesFor (command_of.Unversioned asked) (D.state, repo) (P.state, peer) (K.state, out.old, out.new) result }
    ensures unread { command_reads (command_of.Unversioned asked) ≡ false → input.new ≡ input.old }
    ensures untouched { command_opens (command_of.Unversioned asked) ≡ false → result.repo ≡ repo }
    ensures unasked { command_asks_peer (command_of.Unversioned asked) ≡ false → result.peer ≡ peer }
    ensures unasked_clock { command_ticks (command_of.Unversioned asked) ≡ false → clock.new ≡ clock.old }
{
    match asked {
        Unversioned::Sync { .. } => {
            let (due, repo, peer) = uv_sync(alloc, repo, peer);
            let status = print_due(out, due);
            Ran { status, repo, peer }
        }
        asked => {
            let command = Command::Unversioned(asked);
            let Done { status, repo } = obey(alloc, command, input, clock, out, repo);
            Ran { status, repo, peer }
        }
    }
}

/// Does what a command says, prints what it comes to, and gives the status and the disks.
fn start<S: Source, K: Sink, D: Disk, P: Disk, N: Dial, C: Clock>(
    alloc: Global,
    command: Command,
    input: &mut S,
    out: &mut K,
    repo: D,
    peer: P,
    dial: &mut N,
    clock: &mut C,
) -> Ran<D, P>
    requires { IsObeyable command }
    ensures runs { RunsFor command (S.state, input.old, input.new) (C.told, clock.old, clock.new) (K.state, out.old, out.new) (D.state, repo) result }
    ensures syncs { SyncsFor command (D.state, repo) (P.state, peer) (N.state, dial.old, dial.new) (K.state, out.old, out.new) result }
    ensures cloned { ClonesFor command (D.state, repo) (N.state, dial.old, dial.new) (K.state, out.old, out.new) result }
    ensures merged { MergesFor command (D.state, repo) (P.state, peer) (K.state, out.old, out.new) result }
    ensures scrubbed { ScrubsFor command (D.state, repo) (P.state, peer) (K.state, out.old, out.new) result }
    ensures unread { command_reads command ≡ false → input.new ≡ input.old }
    ensures untouched { command_opens command ≡ false → result.repo ≡ repo }
    ensures unasked { command_asks_peer command ≡ false → result.peer ≡ peer }
    ensures undialled { command_dials command ≡ false → dial.new ≡ dial.old }
    ensures unasked_clock { command_ticks command ≡ false → clock.new ≡ clock.old }
{
    match command {
        Command::Pull { login, .. } => {
            let (due, repo) = sync(alloc, Way::Pull, login, repo, dial);
            let status = print_due(out, due);
            Ran { status, repo, peer }
        }
        Command::Push { login, .. } => {
            let (due, repo) = sync(alloc, Way::Push, login, repo, dial);
            let status = print_due(out, due);
            Ran { status, repo, peer }
        }
        Command::Clone {
            address: _address,
            server,
            fields,
        } => {
            let (due, repo) = clone_onto(alloc, server, &fields, repo, dial);
            let status = print_due(out, due);
            Ran { status, repo, peer }
        }
        Command::PullLocal { .. } => {
            let (due, repo, peer) = pull_local(alloc, repo, peer);
            let status = print_due(out, due);
            Ran { status, repo, peer }
        }
        Command::Scrub { .. } => {
            let (due, repo, peer) = scrub(alloc, repo, peer);
            let status = print_due(out, due);
            Ran { status, repo, peer }
        }
        Command::Unversioned(asked) => {
            start_unversioned(alloc, asked, input, out, repo, peer, clock)
        }
        command => {
            let Done { status, repo } = obey(alloc, command, input, clock, out, repo);
            Ran { status, repo, peer }
        }
    }
}

/// Runs the command that the words say. It takes the input, the disks of the repository and of a peer, a dial and a clock,
/// prints to the output, and gives the status and both disks.
///
/// # Status
///
/// - 0: the command is done.
/// - 1: the words are outside the grammar, or they say `serve`.
/// - 2: a file isn't a repository.
/// - 3: the command or its input is refused.
/// - 4, 5, 6 and 7: a disk, the input, the output or the dial failed.
/// - 8: a reply of the peer is wrong.
/// - 9: out of memory.
/// - 10: the peer announced a name and didn't send it.
/// - 11: a sync took 100,000 rounds.
/// - 12: the bytes that were read for an artifact have another name. Only `cat`, `export`, `verify`, `scrub`, `push` and
///   `pull-local` read contents. No content is damaged over a disk that tells its contents and meets the disk model.
///
/// Where the line of a refusal or of a fault can't be written, the status stays. A call of a disk, of the input or of the
/// dial failed only where the status is 4, 5 or 7. Before a 9 none failed.
///
/// # What is used
///
/// - The input: a command that reads none leaves it as it is.
/// - The repository's disk: `ingest`, `gen` and words outside the grammar leave it as it is.
/// - The peer's disk: only `pull-local`, `uv-sync` and `scrub` use it.
/// - The dial: only `pull`, `push` and `clone` use it.
/// - The clock: only `put`, `checkin`, `uv-add` and `uv-remove` ask it.
///
/// # Order
///
/// First the file is loaded, then the input is read, then its form is checked, then `put` or `checkin` takes its one
/// moment, then what it appends is committed, then the text is printed.
///
/// A `put` takes no moment where the file is no repository, and none where its message is too long or is refused for a line
/// or a card. Each other `put` takes one, also where its message has no file or a file is refused. A `checkin` takes one
/// where its file is a repository and its tree and its parent aren't refused, and else none.
///
/// Where the disk failed while the file was loaded, nothing was read and no moment was taken. Where it failed in the
/// commit, a moment was taken as if it hadn't failed. Where the input failed, none is taken. Out of memory, one that is due
/// may be taken.
///
/// Of the commands of unversioned files all but `uv-init` load the file as a store, and refuse it where one of its Blobs is
/// no entry, before `uv-add` reads its input. `uv-add` takes one moment after an input that isn't too long, and `uv-remove`
/// takes one where its path is there.
///
/// # What the file holds
///
/// Of a command that meets no peer:
///
/// - After status 0 and 6 the file holds its old records and those of the command.
/// - After status 4 it holds the old records, with all or none of the command's.
/// - After each other status it holds the old records.
///
/// At whatever moment a crash comes, what it leaves holds the old records, with all or none of the command's. After status
/// 0 and 6 it holds all, whatever a crash before the run might have left.
///
/// # Sync and clone
///
/// A sync makes one commit for each round that stored or published something and that no fault ended. After 7, after 12 and
/// after each status of its end, the file holds all of these commits. After 4 and 9 it holds all, or all but that of the
/// last round. At each moment a crash leaves some first ones.
///
/// A clone refuses a file with bytes and leaves it as it is. Into an empty file the commit of its first reply also writes
/// the record of the repository.
///
/// The peer's file holds what it held, unless its disk failed. Nobody looks at it where the repository's own file isn't a
/// repository.
///
/// # Sync of unversioned files
///
/// It opens its own file and then the peer's, and makes one commit for each, its own first. At each moment each file holds
/// its old records, or these with its one commit. The peer's file takes nothing in unless the own one has, and nobody looks
/// at it unless that was opened.
///
/// After status 0 both files hold stores whose map is the merge of the two, as far as versions of a path with one moment
/// and one hash are the same. After 9 none, the own or both commits were made.
///
/// # Scrub
///
/// A scrub opens its own file, which holds the same records at each moment. Then it writes a new file of them over a peer's
/// file without bytes. A peer's file with bytes is refused and stays as it is. It also stays where the own file isn't a
/// repository.
///
/// At each moment the peer's file is no repository or the whole new one. After status 0 and 6 it is exactly that file, and
/// so is each of its images, so no byte is left of what is shunned. Its records leave what those of the own file leave.
pub fn run<S: Source, K: Sink, D: Disk, P: Disk, N: Dial, C: Clock>(
    alloc: Global,
    words: &[String],
    input: &mut S,
    out: &mut K,
    repo: D,
    peer: P,
    dial: &mut N,
    clock: &mut C,
) -> Ran<D, P>
    ensures runs { RunsAlone (texts words.now) (S.state, input.old, input.new) (C.told, clock.old, clock.new) (K.state, out.old, out.new) (D.state, repo) result }
    ensures synced { SyncsAs (texts words.now) (D.state, repo) (P.state, peer) (N.state, dial.old, dial.new) (K.state, out.old, out.new) result }
    ensures cloned { ClonesAs (texts words.now) (D.state, repo) (N.state, dial.old, dial.new) (K.state, out.old, out.new) result }
    ensures merged { MergesAs (texts words.now) (D.state, repo) (P.state, peer) (K.state, out.old, out.new) result }
    ensures scrubbed { ScrubsAs (texts words.now) (D.state, repo) (P.state, peer) (K.state, out.old, out.new) result }
    ensures unread { reads_input (texts words.now) ≡ false → input.new ≡ input.old }
    ensures untouched { opens_file (texts words.now) ≡ false → result.repo ≡ repo }
    ensures unasked { asks_peer (texts words.now) ≡ false → result.peer ≡ peer }
    ensures undialled { dials (texts words.now) ≡ false → dial.new ≡ dial.old }
    ensures unasked_clock { asks_clock (texts words.now) ≡ false → clock.new ≡ clock.old }
{
    match read(alloc, words) {
        Ok(words) => start(alloc, words.command, input, out, repo, peer, dial, clock),
        Err(WordsFault::Usage) => {
            let status = print_due(out, Err(Fault::Usage));
            Ran { status, repo, peer }
        }
        Err(WordsFault::Memory) => {
            let status = print_due(out, Err(Fault::Memory));
            Ran { status, repo, peer }
        }
    }
}

/// A law and no code: words, an input, a moment and a file have one outcome at most, and so have a sync and a clone by what they read,
/// and a sync of unversioned files and a scrub by both files.
pub fn one_outcome()
    ensures kinds { IsOneAtMost IsKind }
    ensures outcome { HasOneOutcome }
    ensures synced { HasOneSyncOutcome }
    ensures cloned { HasOneCloneOutcome }
    ensures merged { HasOneUvSync }
    ensures scrubbed { HasOneScrub }
{}

/// A law and no code: words, an input, a moment and a file have an outcome, where the words say no command that meets a peer. A sync
/// has one over any files and of as many replies as it may have, and so has a clone. A sync of unversioned files and a scrub have
/// one over any two files.
pub fn some_outcome()
    ensures outcome { HasSomeOutcome }
    ensures synced { HasSomeSyncOutcome }
    ensures cloned { HasSomeCloneOutcome }
    ensures merged { HasSomeUvSync }
    ensures scrubbed { HasSomeScrub }
{}
