//! Clones a repository.
ghost use Rattle.std.specs.Prelude.{◌≡◌, ◌≤◌, ◌↔◌, ◌∷◌, ◌⊎◌, [], ℕ, List, length, None, Some, Ok, Err, option_map, IsTrue, IfOk, IfErr};
ghost use Rattle.fsl_disk.specs.Disk.{IsModelled, Keeps, LeavesOnly, Quiet, Told};
ghost use Rattle.fsl_record.specs.Records.{AreFields};
ghost use Rattle.fsl_record.specs.declared.Record.TheVariants as record_of;
ghost use Rattle.fsl_journal.specs.File.{IsFileOf};
ghost use Rattle.fsl_repo.specs.Whole.{front, is_modelled};
ghost use Rattle.fsl_name.specs.Name.{name_in};
ghost use Rattle.fsl_pull.specs.declared.PullFault.TheVariants as fault;
ghost use Rattle.fsl_pull.specs.Replies.{codes_of, sequel_of, sequel_in};
ghost use Rattle.fsl_pull.specs.Clones.{project_of, project_in, first_record};
ghost use Rattle.fsl_pull.specs.Asking.{IsAsked, IsDialCounted};
ghost use Rattle.fsl_pull.specs.CloneCalls.{IsEmptied, NoneOr, UnlessDisk, IsUndamaged, IsClonedOver};
ghost use Rattle.fsl_pull.specs.CloneTurns.{clone_bytes, IsUnreplied, place_by, IsCloneTaken, IsCloneTurned, IsOnly, opening_fault, making_fault, IsMadeBy, IsUnopened, IsUnmadeBy, made_disk, IsBegunBy, IsUnbegun, IsClonedOn, IsClosedOn};

use crate::asking::{Unasked, send_and_read};
use crate::committing::commit;
use crate::requests::clone_request;
use crate::taking::take_cards;
use crate::{Login, PeerFault, PullFault, Pulled};
use fsl_disk::Disk;
use fsl_journal::{CreateFault, LoadFault, create};
use fsl_name::Name;
use fsl_outside::Dial;
use fsl_record::Config;
use fsl_repo::Repo;
use fsl_text::{List, MOST_ROUNDS, Memory, Text};
use fsl_wire::{Message, WireCard};
use std::alloc::Global;

/// The place from which the first round of a clone asks.
const FIRST_PLACE: u64 = 1;

// ---- what a reply says

/// The name that a text is, if it is one.
fn name_in(text: &[u8]) -> Option<Name>
    ensures { result ≡ name_in text.now }
{
    match Name::read(text) {
        Ok(name) => Some(name),
        Err(_) => None,
    }
}

/// The project code of a push card, where its codes are two names.
fn project_of(server: &[u8], project: &[u8]) -> Option<Name>
    ensures { result ≡ project_of (server.now, project.now) }
{
    match name_in(server) {
        Some(_) => name_in(project),
        None => None,
    }
}

/// What a push card tells of its project.
fn project_told(card: &WireCard) -> Option<Option<Name>>
    ensures { result ≡ option_map project_of (codes_of card.now) }
{
    match card {
        WireCard::Push { server, project } => Some(project_of(server.bytes(), project.bytes())),
        _ => None,
    }
}

/// The project code of the first push card, where its codes are two names.
fn project_in(cards: &[WireCard]) -> Option<Name>
    ensures { result ≡ project_in cards.now }
{
    for card in cards {
        if let Some(project) = project_told(card) {
            return project;
        }
    }
    None
}

/// The number of a card that says where a clone goes on.
fn sequel_of(card: &WireCard) -> Option<u64>
    ensures { result ≡ sequel_of card.now }
{
    match card {
        WireCard::CloneSeqno { next } => Some(*next),
        _ => None,
    }
}

/// The first number that says where a clone goes on.
fn sequel_in(cards: &[WireCard]) -> Option<u64>
    ensures { result ≡ sequel_in cards.now }
{
    for card in cards {
        if let Some(next) = sequel_of(card) {
            return Some(next);
        }
    }
    None
}

// ---- the repository

/// Copies of texts, in their order. `Memory` is the only error.
fn copies(alloc: Global, texts: &[Text]) -> Result<List<Text>, Memory>
    ensures { IfOk result (λ copies. copies ≡ texts.now) }
{
    let mut copies = Vec::new(alloc);
    for text in texts {
        copies.push(Text::of(alloc, text.bytes())?)?;
    }
    Ok(List::from_vec(copies))
}

/// Whether texts are the same, one by one.
fn are_same(texts: &[Text], others: &[Text]) -> bool
    ensures { IsTrue result ↔ texts.now ≡ others.now }
{
    if texts.len() != others.len() {
        return false;
    }
    for i in 0..texts.len() {
        if texts[i].bytes() != others[i].bytes() {
            return false;
        }
    }
    true
}

/// Whether one Config is the other.
fn is_same(found: &Config, config: &Config) -> bool
    ensures { IsTrue result ↔ found.now ≡ config.now }
{
    found.project == config.project
        && found.server == config.server
        && are_same(found.fields.items(), config.fields.items())
}

/// Whether a repository whose records are all committed has this Config and no other record. A commit of nothing tells how
/// many there are, and calls no device.
fn has_this_alone<D: Disk>(repo: &mut Repo<D>, config: &Config) -> bool
    requires runs { repo.old.seen.state.stopped ≡ None }
    requires committed { repo.old.seen.state.committed ≡ length repo.old.seen.state.records }
    ensures alone { IsTrue result ↔ repo.old.seen.state.records ≡ record_of.Config config.now ∷ [] }
    ensures state { repo.new.seen.state ≡ repo.old.seen.state }
    ensures loaded { repo.new.seen.loaded ≡ repo.old.seen.loaded }
    ensures disk { repo.new.disk ≡ repo.old.disk }
{
    repo.is_whole();
    let count = match repo.commit() {
        Ok(count) => count,
        Err(_) => return false,
    };
    if count != 1 {
        return false;
    }
    is_same(repo.config(), config)
}

/// A repository that was opened, where it is the one that was made. Else the disk comes back, with `NotRepository`.
fn as_made<D: Disk>(repo: Repo<D>, config: &Config) -> Result<Repo<D>, (D, PullFault)>
    requires runs { repo.seen.state.stopped ≡ None }
    requires committed { repo.seen.state.committed ≡ length repo.seen.state.records }
    ensures alone { IfOk result (λ made. IsOnly config.now repo.seen made.seen) }
    ensures disk { made_disk result ≡ repo.disk }
    ensures other { IfErr result (λ failed. (failed.1 ≡ fault.NotRepository 0) × (repo.seen.state.records ≡ record_of.Config config.now ∷ [] → ⊥)) }
{
    let mut repo = repo;
    if has_this_alone(&mut repo, config) {
        Ok(repo)
    } else {
        Err((repo.close(), PullFault::NotRepository { at: 0 }))
    }
}

/// Why a repository wasn't opened.
fn opening_fault(fault: LoadFault) -> PullFault
    ensures { result ≡ opening_fault fault }
{
    match fault {
        LoadFault::Disk => PullFault::Disk,
        LoadFault::NotRepository { at } => PullFault::NotRepository { at },
        LoadFault::Memory => PullFault::Memory,
    }
}

/// Why a file wasn't made. One that was empty and has bytes now was written by another program meanwhile.
fn making_fault(fault: CreateFault) -> PullFault
    ensures { result ≡ making_fault fault }
{
    match fault {
        CreateFault::NotEmpty { len } => PullFault::NotEmpty { len },
        CreateFault::Disk => PullFault::Disk,
        CreateFault::Memory => PullFault::Memory,
    }
}

/// Opens the repository that was made on a disk.
fn opened_made<D: Disk>(alloc: Global, disk: D, config: &Config) -> Result<Repo<D>, (D, PullFault)>
    ensures opened { IfOk result (λ repo. IsMadeBy config.now (D.state disk).faults (is_modelled (D.state disk)) repo.seen) }
    ensures fault { IfErr result (λ failed. IsUnopened config.now (D.state disk) (D.state failed.0) failed.1) }
    ensures moments { IsModelled (D.state disk) → ((c : List ℕ) → (D.state disk).images c → IsFileOf c (record_of.Config config.now ∷ []))
        → LeavesOnly (D.state disk) (D.state (made_disk result)) (λ c. IsFileOf c (record_of.Config config.now ∷ [])) }
    ensures keeps { Keeps (D.state disk) (D.state (made_disk result)) }
{
    match Repo::load(alloc, disk) {
        Ok(repo) => as_made(repo, config),
        Err((disk, fault)) => Err((disk, opening_fault(fault))),
    }
}

/// Makes the file of a repository on an empty disk, and opens it. On a fault the disk comes back.
///
/// Errors: `Disk`; `Memory`; `NotEmpty` where the file has bytes, which stay, and `NotRepository` where it reads back as
/// another: one that is told does neither.
fn made<D: Disk>(alloc: Global, disk: D, config: &Config) -> Result<Repo<D>, (D, PullFault)>
    requires fields { AreFields config.now.fields }
    requires empty { Told (D.state disk) (λ held. held ≡ []) }
    ensures made { IfOk result (λ repo. IsMadeBy config.now (D.state disk).faults (is_modelled (D.state disk)) repo.seen) }
    ensures fault { IfErr result (λ failed. IsUnmadeBy config.now (D.state disk) (D.state failed.0) failed.1) }
    ensures moments { IsEmptied (D.state disk) → LeavesOnly (D.state disk) (D.state (made_disk result)) (NoneOr (record_of.Config config.now ∷ [])) }
    ensures keeps { Keeps (D.state disk) (D.state (made_disk result)) }
{
    let mut disk = disk;
    match create(alloc, &mut disk, config) {
        Ok(()) => opened_made(alloc, disk, config),
        Err(fault) => Err((disk, making_fault(fault))),
    }
}

/// Begins the repository of a clone by the first reply: its project is that of the first push card. On a fault the disk
/// comes back.
fn begun<D: Disk>(
    alloc: Global,
    disk: D,
    server: Name,
    fields: &List<Text>,
    cards: &[WireCard],
) -> Result<Repo<D>, (D, PullFault)>
    requires fields { AreFields fields.now }
    requires empty { Told (D.state disk) (λ held. held ≡ []) }
    ensures begun { IfOk result (λ repo. IsBegunBy server fields.now cards.now (D.state disk).faults (is_modelled (D.state disk)) repo.seen) }
    ensures fault { IfErr result (λ failed. IsUnbegun D.state server fields.now cards.now disk failed.0 failed.1) }
    ensures moments { (project : List ℕ) → project_in cards.now ≡ Some project → IsEmptied (D.state disk)
        → LeavesOnly (D.state disk) (D.state (made_disk result)) (NoneOr (first_record project server fields.now ∷ [])) }
    ensures keeps { Keeps (D.state disk) (D.state (made_disk result)) }
{
    let project = match project_in(cards) {
        Some(project) => project,
        None => return Err((disk, PullFault::Peer(PeerFault::NoPush))),
    };
    let fields = match copies(alloc, fields.items()) {
        Ok(fields) => fields,
        Err(_) => return Err((disk, PullFault::Memory)),
    };
    let config = Config {
        project,
        server,
        fields,
    };
    made(alloc, disk, &config)
}

// ---- rounds

/// Takes the cards of a reply to a request for the files from a place on, and commits. It answers the place that the next
/// round asks from, or none at the end.
fn take_reply<D: Disk>(
    repo: &mut Repo<D>,
    from: u64,
    cards: &[WireCard],
) -> Result<Option<u64>, PullFault>
    requires runs { repo.old.seen.state.stopped ≡ None }
    ensures step { IsCloneTaken from cards.now (D.state repo.old.disk) (D.state repo.new.disk)
        repo.old.seen repo.new.seen (repo.new.disk ≡ repo.old.disk) result }
    ensures runs { UnlessDisk (repo.new.seen.state.stopped ≡ None) result }
    ensures steady { UnlessDisk (repo.new.seen.state.faults ≡ repo.old.seen.state.faults) result }
    ensures undamaged { IfErr result IsUndamaged }
    ensures keeps { Keeps (D.state repo.old.disk) (D.state repo.new.disk) }
{
    repo.is_whole();
    match take_cards(repo, cards, Some(from)) {
        Ok(_) => {}
        Err(fault) => return Err(fault),
    }
    let next = match sequel_in(cards) {
        Some(next) => next,
        None => return Err(PullFault::Peer(PeerFault::NoSequence)),
    };
    match commit(repo) {
        Ok(()) => Ok(place(next)),
        Err(_) => Err(PullFault::Disk),
    }
}

/// The place that the next round asks from, or none at the end.
fn place(next: u64) -> Option<u64>
    ensures { result ≡ place_by next }
{
    if next == 0 { None } else { Some(next) }
}

/// Asks for the files from a place on, on a connection of its own.
fn reply_from<N: Dial>(
    alloc: Global,
    dial: &mut N,
    login: &Option<Login>,
    from: u64,
) -> Result<Message, PullFault>
    ensures asked { IfOk result (λ reply. IsAsked (N.state dial.old) (N.state dial.new) (clone_bytes login.now from) (Ok reply)) }
    ensures unasked { IfErr result (IsUnreplied (N.state dial.old) (N.state dial.new) (clone_bytes login.now from)) }
    ensures later { (N.state dial.old).faults ≤ (N.state dial.new).faults }
    ensures counts { IsDialCounted (N.state dial.old) (N.state dial.new) result }
{
    let request = match clone_request(alloc, login, from) {
        Ok(request) => request,
        Err(_) => return Err(PullFault::Memory),
    };
    match send_and_read(alloc, dial, request.bytes()) {
        Ok(Ok(reply)) => Ok(reply),
        Ok(Err(why)) => Err(PullFault::Peer(why)),
        Err(Unasked::Link) => Err(PullFault::Link),
        Err(Unasked::Memory) => Err(PullFault::Memory),
    }
}

/// One round behind the first.
fn clone_round<D: Disk, N: Dial>(
    alloc: Global,
    repo: &mut Repo<D>,
    dial: &mut N,
    login: &Option<Login>,
    from: u64,
) -> Result<Option<u64>, PullFault>
    requires runs { repo.old.seen.state.stopped ≡ None }
    ensures round { IsCloneTurned login.now from (N.state dial.old) (N.state dial.new) (D.state repo.old.disk) (D.state repo.new.disk)
        repo.old.seen repo.new.seen (repo.new.disk ≡ repo.old.disk) result }
    ensures runs { UnlessDisk (repo.new.seen.state.stopped ≡ None) result }
    ensures steady { UnlessDisk (repo.new.seen.state.faults ≡ repo.old.seen.state.faults) result }
    ensures undamaged { IfErr result IsUndamaged }
    ensures keeps { Keeps (D.state repo.old.disk) (D.state repo.new.disk) }
    ensures dialled { (N.state dial.old).faults ≤ (N.state dial.new).faults }
    ensures counts { IsDialCounted (N.state dial.old) (N.state dial.new) result }
{
    match reply_from(alloc, dial, login, from) {
        Ok(reply) => take_reply(repo, from, reply.cards()),
        Err(fault) => Err(fault),
    }
}

/// All rounds of a clone whose repository was begun by this first reply.
fn rounds<D: Disk, N: Dial>(
    alloc: Global,
    repo: &mut Repo<D>,
    dial: &mut N,
    login: &Option<Login>,
    first: &[WireCard],
) -> Result<Pulled, PullFault>
    requires runs { repo.old.seen.state.stopped ≡ None }
    ensures clones { IsClonedOn login.now first.now (N.state dial.old) (N.state dial.new)
        (D.state repo.old.disk) (D.state repo.new.disk) repo.old.seen repo.new.seen result }
    ensures counts { IsDialCounted (N.state dial.old) (N.state dial.new) result }
    ensures runs { UnlessDisk (repo.new.seen.state.stopped ≡ None) result }
    ensures steady { UnlessDisk (repo.new.seen.state.faults ≡ repo.old.seen.state.faults) result }
    ensures undamaged { IfErr result IsUndamaged }
    ensures keeps { Keeps (D.state repo.old.disk) (D.state repo.new.disk) }
{
    repo.is_whole();
    let mut from = match take_reply(repo, FIRST_PLACE, first) {
        Ok(Some(next)) => next,
        Ok(None) => {
            return Ok(Pulled {
                rounds: 1,
                stored: repo.stored(),
            });
        }
        Err(fault) => return Err(fault),
    };
    for round in 1..MOST_ROUNDS {
        match clone_round(alloc, repo, dial, login, from) {
            Ok(Some(next)) => from = next,
            Ok(None) => {
                return Ok(Pulled {
                    rounds: round + 1,
                    stored: repo.stored(),
                });
            }
            Err(fault) => return Err(fault),
        }
    }
    Err(PullFault::Rounds)
}

/// All rounds over a repository that was begun by this first reply, and its disk.
fn closed_rounds<D: Disk, N: Dial>(
    alloc: Global,
    repo: Repo<D>,
    dial: &mut N,
    login: &Option<Login>,
    first: &[WireCard],
) -> (D, Result<Pulled, PullFault>)
    requires runs { repo.seen.state.stopped ≡ None }
    ensures clones { IsClosedOn login.now first.now (N.state dial.old) (N.state dial.new)
        (D.state repo.disk) (D.state result.0) repo.seen result.1 }
    ensures counts { IsDialCounted (N.state dial.old) (N.state dial.new) result.1 }
    ensures stands { (c : List ℕ) → IsModelled (D.state repo.disk) → (D.state repo.disk).images c → IsFileOf c (front repo.seen.state) }
    ensures steady { UnlessDisk ((D.state result.0).faults ≡ repo.seen.state.faults) result.1 }
    ensures undamaged { IfErr result.1 IsUndamaged }
    ensures keeps { Keeps (D.state repo.disk) (D.state result.0) }
{
    let mut repo = repo;
    repo.is_whole();
    let answer = rounds(alloc, &mut repo, dial, login, first);
    repo.is_whole();
    (repo.close(), answer)
}

/// A clone onto a disk that is empty.
fn clone_onto<D: Disk, N: Dial>(
    alloc: Global,
    disk: D,
    dial: &mut N,
    server: Name,
    fields: &List<Text>,
    login: &Option<Login>,
) -> (D, Result<Pulled, PullFault>)
    requires fields { AreFields fields.now }
    requires empty { Told (D.state disk) (λ held. held ≡ []) }
    ensures clones { IsClonedOver D.state server fields.now login.now (N.state dial.old) (N.state dial.new) disk result.0 result.1 }
    ensures counts { IsDialCounted (N.state dial.old) (N.state dial.new) result.1 }
    ensures steady { UnlessDisk ((D.state result.0).faults ≡ (D.state disk).faults) result.1 }
    ensures undamaged { IfErr result.1 IsUndamaged }
    ensures keeps { Keeps (D.state disk) (D.state result.0) }
{
    let first = match reply_from(alloc, dial, login, FIRST_PLACE) {
        Ok(first) => first,
        Err(fault) => return (disk, Err(fault)),
    };
    match begun(alloc, disk, server, fields, first.cards()) {
        Ok(repo) => closed_rounds(alloc, repo, dial, login, first.cards()),
        Err((disk, fault)) => (disk, Err(fault)),
    }
}

/// Clones the repository at the other end of the dial onto an empty disk, and returns that disk. The first reply begins the
/// repository, with the project code of its first push card and the server code and fields that are given. The fields are in
/// their form. Each round asks for the files from a place on, at first 1, and then from the number that the reply says. The files
/// of a reply arrive as public, and one commit follows. The clone is at its end with the first reply that says 0. `stored` counts
/// the artifacts stored.
///
/// Errors: `NotEmpty` with the disk's length where it isn't 0, before any round, or, where another program wrote it
/// meanwhile, behind the first; `Link` where a call of the dial failed,
/// and `Disk` where one of the disk did; `Peer`, `TooLarge` and `Full` by the first thing that is wrong with a reply:
/// `NoPush` where the first has no push card with two codes, `Sequence` with a number that doesn't go on, `NoSequence`
/// behind all cards where there is no number; `Rounds` after 100,000 rounds; `NotRepository` where the file that was made
/// reads back as another, which never comes over a disk that tells its contents; `Memory`. The rounds that were committed
/// stay.
/// FORMATS: Users, logins and replies
pub fn clone_from<D: Disk, N: Dial>(
    alloc: Global,
    disk: D,
    server: Name,
    fields: &List<Text>,
    dial: &mut N,
    login: &Option<Login>,
) -> (D, Result<Pulled, PullFault>)
    requires { AreFields fields.now }
    ensures clones { IsClonedOver D.state server fields.now login.now (N.state dial.old) (N.state dial.new) disk result.0 result.1 }
    // The dial's count of faults rises where the answer is `Link`, and the disk's where it is `Disk`.
    ensures counts { IsDialCounted (N.state dial.old) (N.state dial.new) result.1 }
    ensures steady { UnlessDisk ((D.state result.0).faults ≡ (D.state disk).faults) result.1 }
    // No content is read back, so none is found damaged.
    ensures undamaged { IfErr result.1 IsUndamaged }
    // What was there stays, at each moment.
    ensures untouched { Told (D.state disk) (λ held. (held ≡ []) ⊎ Quiet (D.state disk) (D.state result.0)) }
    ensures keeps { Keeps (D.state disk) (D.state result.0) }
{
    let mut disk = disk;
    let len = match disk.len() {
        Ok(len) => len,
        Err(_) => return (disk, Err(PullFault::Disk)),
    };
    if len != 0 {
        return (disk, Err(PullFault::NotEmpty { len }));
    }
    clone_onto(alloc, disk, dial, server, fields, login)
}
