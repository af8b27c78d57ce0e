//! `uv-init`, `uv-add`, `uv-remove`, `uv-list`, `uv-cat`: files without history, of which the newest counts.
ghost use Rattle.std.specs.Prelude.{◌≡◌, ◌++◌, ◌∷◌, [], Err, None, Some, false, codes, decimal, is_some, IsTrue, IfOk};
ghost use Rattle.fsl_text.specs.Escapes.{escape};
ghost use Rattle.fsl_order.specs.Maps.{value_at};
ghost use Rattle.fsl_record.specs.Records.{AreFields};
ghost use Rattle.fsl_words.specs.declared.Command.TheVariants as command_of;
ghost use Rattle.fsl_words.specs.declared.Unversioned.TheVariants as uv;
ghost use Rattle.fsl_uv.specs.Entries.{is_path};
ghost use Rattle.fsl_uv.specs.Reports as report;
ghost use Rattle.fsl_uv.specs.Reports.{list_done, cat_done, file_in};
ghost use Rattle.fossil.specs.Printed as printing;
ghost use Rattle.fossil.specs.Unversioned.{said_printed, IsUvObeyable};
ghost use Rattle.fossil.specs.UvUses.{uv_use};
ghost use Rattle.fossil.specs.UvCalls.{path_line, IsNoStoreDue, IsPutAnswer, HasPut, PutsEntry, AddsContent, AddsTo, RemovesFrom, ActsTicking, IsToldAs};
ghost use Rattle.fossil.specs.RunCall.{ActsReading, ActsUnread};

use crate::answers::answer::{
    Answer, not_repository, numbered_refusal, refusal, refusal_of, too_long,
};
use crate::answers::due::{Due, answered};
use crate::answers::fault::Fault;
use crate::answers::status::DONE;
use crate::commands::init::init;
use crate::reading::input::read_input;
use fsl_disk::Disk;
use fsl_name::Name;
use fsl_outside::{Clock, Source};
use fsl_record::Config;
use fsl_text::{List, Memory, Text, escape_into};
use fsl_uv::{Entry, Put, Store, UvFault, UvLoadFault};
use fsl_words::Unversioned;
use std::alloc::Global;

/// A line of a word and a path, as it is escaped.
fn path_answer(alloc: Global, word: &[u8], path: &Text) -> Result<Answer, Memory>
    ensures { IfOk result (λ a. a ≡ record { status = 0; text = path_line word.now path.now }) }
{
    let mut text = Text::of(alloc, word)?;
    escape_into(&mut text, path.bytes())?;
    text.append(b"\n")?;
    Ok(Answer { status: DONE, text })
}

/// The refusal of a content of so many bytes, by its path.
fn content_too_large(alloc: Global, path: &Text, size: u64) -> Result<Answer, Memory>
    ensures { IfOk result (λ a. a ≡ printing.refused (codes "too large " ++ escape path.now ++ 32 ∷ decimal size)) }
{
    let mut reason = Text::of(alloc, b"too large ")?;
    escape_into(&mut reason, path.bytes())?;
    reason.append(b" ")?;
    numbered_refusal(alloc, reason.bytes(), size)
}

/// The refusal of a path that isn't there, or is deleted.
fn no_file(alloc: Global, path: &Text) -> Result<Answer, Memory>
    ensures { IfOk result (λ a. a ≡ said_printed (report.no_file path.now)) }
{
    let mut reason = Text::of(alloc, b"no file ")?;
    escape_into(&mut reason, path.bytes())?;
    refusal(alloc, reason.bytes())
}

/// The refusal of a file with a Blob that is no entry, by its name.
pub(crate) fn not_unversioned(alloc: Global, name: Name) -> Result<Answer, Memory>
    ensures { IfOk result (λ a. a ≡ said_printed (report.not_unversioned name)) }
{
    refusal_of(alloc, b"not unversioned ", name.text().as_slice())
}

/// What is due of a file that isn't opened as a store.
pub(crate) fn no_store(alloc: Global, fault: UvLoadFault) -> Due
    ensures { IsNoStoreDue fault result }
{
    match fault {
        UvLoadFault::Disk => Err(Fault::Disk),
        UvLoadFault::NotRepository { at } => answered(not_repository(alloc, at)),
        UvLoadFault::NotEntry { name } => answered(not_unversioned(alloc, name)),
        UvLoadFault::Memory => Err(Fault::Memory),
    }
}

/// What is printed of a put into a store that runs.
fn put_answer(alloc: Global, path: &Text, put: Result<Put, UvFault>) -> Result<Answer, Memory>
    ensures { IfOk result (IsPutAnswer path.now put) }
{
    match put {
        Ok(Put::Stored) => path_answer(alloc, b"stored ", path),
        Ok(Put::Kept) => path_answer(alloc, b"kept ", path),
        Err(UvFault::TooLarge { size }) => content_too_large(alloc, path, size),
        Err(UvFault::Full { .. }) => refusal(alloc, b"full"),
        // The store runs, so memory was wanting.
        Err(_) => Err(Memory),
    }
}

/// Puts an entry into a store that runs.
fn put_in<D: Disk>(alloc: Global, entry: &Entry, store: &mut Store<D>) -> Result<Answer, Memory>
    requires path { IsTrue (is_path entry.now.path) }
    requires runs { store.old.seen.log.stopped ≡ None }
    ensures done { IfOk result (HasPut entry.now store.old.seen store.new.seen) }
    ensures disk { store.new.disk ≡ store.old.disk }
{
    let put = store.put(entry);
    put_answer(alloc, &entry.path, put)
}

/// Puts an entry into a store that was opened, and commits it. Where it isn't stored, or there is no memory for the line,
/// nothing is committed.
fn store_entry<D: Disk>(alloc: Global, entry: &Entry, store: &mut Store<D>) -> Due
    requires path { IsTrue (is_path entry.now.path) }
    requires runs { store.old.seen.log.stopped ≡ None }
    ensures { PutsEntry entry.now (D.state, store.old, store.new) result }
{
    store.is_store();
    let answer = put_in(alloc, entry, store)?;
    let committed = store.commit();
    store.is_store();
    match committed {
        Ok(_) => Ok(answer),
        // No commit has failed before, so the disk did.
        Err(_) => Err(Fault::Disk),
    }
}

/// Puts a content into a store that was opened, behind one moment of the clock.
fn add_content<C: Clock, D: Disk>(
    alloc: Global,
    path: Text,
    content: Text,
    clock: &mut C,
    store: &mut Store<D>,
) -> Due
    requires path { IsTrue (is_path path) }
    requires runs { store.old.seen.log.stopped ≡ None }
    ensures { AddsContent path content (C.told, clock.old, clock.new) (D.state, store.old, store.new) result }
{
    let entry = Entry {
        path,
        moment: clock.now(),
        bytes: Some(content),
    };
    let answer = store_entry(alloc, &entry, store);
    drop(entry);
    answer
}

/// Reads the input, and puts it into a store that was opened.
fn add_input<S: Source, C: Clock, D: Disk>(
    alloc: Global,
    path: Text,
    input: &mut S,
    clock: &mut C,
    store: &mut Store<D>,
) -> Due
    requires path { IsTrue (is_path path) }
    requires runs { store.old.seen.log.stopped ≡ None }
    ensures { AddsTo path (S.state, input.old, input.new) (C.told, clock.old, clock.new) (D.state, store.old, store.new) result }
{
    store.is_store();
    match read_input(alloc, input)? {
        Some(content) => add_content(alloc, path, content, clock, store),
        None => Ok(too_long(alloc)?),
    }
}

/// Makes the input the content of a path, from the moment on that the clock answers behind the reading of it. A path that has an
/// equal or a newer entry keeps it. The disk comes back.
fn add<S: Source, C: Clock, D: Disk>(
    alloc: Global,
    path: Text,
    input: &mut S,
    clock: &mut C,
    disk: D,
) -> (Due, D)
    requires { IsTrue (is_path path) }
    ensures { ActsReading (command_of.Unversioned (uv.Add path)) (S.state, input.old, input.new) (C.told, clock.old, clock.new) (D.state, disk, result.1) result.0 }
{
    match Store::load(alloc, disk) {
        Ok(mut store) => {
            store.is_store();
            let answer = add_input(alloc, path, input, clock, &mut store);
            (answer, store.close())
        }
        Err((disk, fault)) => (no_store(alloc, fault), disk),
    }
}

/// Whether a path is in a store and isn't deleted.
fn is_there<D: Disk>(store: &Store<D>, path: &Text) -> bool
    ensures { result ≡ is_some (file_in (value_at store.now.seen.map path.now)) }
{
    match store.find(path) {
        Some(version) => version.held().is_some(),
        None => false,
    }
}

/// Deletes a path of a store that was opened, behind one moment of the clock, where it is there.
fn remove_from<C: Clock, D: Disk>(
    alloc: Global,
    path: Text,
    clock: &mut C,
    store: &mut Store<D>,
) -> Due
    requires path { IsTrue (is_path path) }
    requires runs { store.old.seen.log.stopped ≡ None }
    ensures { RemovesFrom path (C.told, clock.old, clock.new) (D.state, store.old, store.new) result }
{
    store.is_store();
    if is_there(store, &path) {
        let entry = Entry {
            path,
            moment: clock.now(),
            bytes: None,
        };
        let answer = store_entry(alloc, &entry, store);
        drop(entry);
        answer
    } else {
        Ok(no_file(alloc, &path)?)
    }
}

/// Deletes a path, from the moment on that the clock answers where it is there. The disk comes back.
fn remove<C: Clock, D: Disk>(alloc: Global, path: Text, clock: &mut C, disk: D) -> (Due, D)
    requires { IsTrue (is_path path) }
    ensures { ActsTicking (uv.Remove path) (C.told, clock.old, clock.new) (D.state, disk, result.1) result.0 }
{
    match Store::load(alloc, disk) {
        Ok(mut store) => {
            store.is_store();
            let answer = remove_from(alloc, path, clock, &mut store);
            (answer, store.close())
        }
        Err((disk, fault)) => (no_store(alloc, fault), disk),
    }
}

/// The lines of what a store holds.
fn lines_of<D: Disk>(store: &Store<D>) -> Due
    ensures { IsToldAs (list_done store.now.seen.map) result }
{
    match store.list() {
        Ok(text) => Ok(Answer { status: DONE, text }),
        Err(_) => Err(Fault::Memory),
    }
}

/// A line for each path that isn't deleted, by path. The disk comes back.
fn list<D: Disk>(alloc: Global, disk: D) -> (Due, D)
    ensures { ActsUnread (command_of.Unversioned uv.List) (D.state, disk, result.1) result.0 }
{
    match Store::load(alloc, disk) {
        Ok(store) => {
            store.is_store();
            let answer = lines_of(&store);
            (answer, store.close())
        }
        Err((disk, fault)) => (no_store(alloc, fault), disk),
    }
}

/// The content of a path in a store, where it is there and isn't deleted.
fn content_in<D: Disk>(alloc: Global, path: &Text, store: &Store<D>) -> Result<Answer, Memory>
    ensures { IfOk result (λ a. a ≡ said_printed (cat_done store.now.seen.map path.now).said) }
{
    let Some(version) = store.find(path) else {
        return no_file(alloc, path);
    };
    match version.held() {
        Some(content) => Ok(Answer {
            status: DONE,
            text: Text::of(alloc, content.bytes())?,
        }),
        None => no_file(alloc, path),
    }
}

/// What is answered of the content of a path in a store.
fn content_of<D: Disk>(alloc: Global, path: &Text, store: &Store<D>) -> Due
    ensures { IsToldAs (cat_done store.now.seen.map path.now) result }
{
    match content_in(alloc, path, store) {
        Ok(answer) => Ok(answer),
        Err(_) => Err(Fault::Memory),
    }
}

/// The content of a path. The disk comes back.
fn cat<D: Disk>(alloc: Global, path: &Text, disk: D) -> (Due, D)
    ensures { ActsUnread (command_of.Unversioned (uv.Cat path.now)) (D.state, disk, result.1) result.0 }
{
    match Store::load(alloc, disk) {
        Ok(store) => {
            store.is_store();
            let answer = content_of(alloc, path, &store);
            (answer, store.close())
        }
        Err((disk, fault)) => (no_store(alloc, fault), disk),
    }
}

/// Writes a new file for unversioned files with these codes into an empty file. A file that isn't empty is refused.
fn begin<D: Disk>(alloc: Global, project: Name, server: Name, disk: &mut D) -> Due
    requires { AreFields [] }
    ensures { ActsUnread (command_of.Unversioned (uv.Init project server)) (D.state, disk.old, disk.new) result }
{
    let config = Config {
        project,
        server,
        fields: List::new(alloc),
    };
    let answer = init(alloc, &config, disk);
    drop(config);
    answer
}

/// Does what a command of unversioned files says that meets no peer. The disk comes back.
///
/// `uv-init` makes the file, and refuses one with bytes. Each other command loads it as a store first, and is refused where it
/// holds something that is no entry. `uv-add` then reads its input, which may have 2^27 bytes, and takes one moment of the clock;
/// `uv-remove` takes one where its path is there; what they store is one commit.
pub(crate) fn unversioned<S: Source, C: Clock, D: Disk>(
    alloc: Global,
    asked: Unversioned,
    input: &mut S,
    clock: &mut C,
    disk: D,
) -> (Due, D)
    requires obeyable { IsUvObeyable asked }
    requires alone { (uv_use asked).merges ≡ false }
    ensures acts { ActsReading (command_of.Unversioned asked) (S.state, input.old, input.new) (C.told, clock.old, clock.new) (D.state, disk, result.1) result.0 }
    ensures unread { (uv_use asked).reads ≡ false → input.new ≡ input.old }
    ensures unasked_clock { (uv_use asked).ticks ≡ false → clock.new ≡ clock.old }
{
    match asked {
        Unversioned::Init { project, server } => {
            let mut disk = disk;
            let answer = begin(alloc, project, server, &mut disk);
            (answer, disk)
        }
        Unversioned::Add { path } => add(alloc, path, input, clock, disk),
        Unversioned::Remove { path } => remove(alloc, path, clock, disk),
        Unversioned::List => list(alloc, disk),
        Unversioned::Cat { path } => cat(alloc, &path, disk),
        Unversioned::Sync { .. } => unreachable!(),
    }
}
