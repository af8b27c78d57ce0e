//! Gathers artifacts into a set in memory, in which files arrive as in a repository that holds nothing. Of each artifact
//! it keeps what that tells the table of clusters, and none of its bytes.
ghost use Rattle.std.specs.Prelude.{◌≡◌, ◌∷◌, ◌++◌, ◌≤◌, ◌^◌, [], false, true, is_some, length, Ok, Err, IfOk, OnOk};
ghost use Rattle.std.specs.BTreeMap.{get, insert_entry, values};
ghost use Rattle.std.specs.Str.{bytes_eq};
ghost use Rattle.fsl_order.specs.Names.{bytes_cmp, has};
ghost use Rattle.fsl_name.specs.Name.{name_of};
ghost use Rattle.fsl_cross.specs.Facts.{cluster_fact};
ghost use Rattle.fsl_repo.specs.Machine.{State, room_of};
ghost use Rattle.fossil.specs.Ingest.{fresh, IsSetPrinted};
ghost use Rattle.fossil.specs.Taking.{IsGathered, IsGatheredBy, HaveGathered, IsAdded, MakesPublic, WantsUnnoted, IsFactOf};

use crate::answers::answer::{Answer, file_refusal};
use crate::answers::ingest_report::report_of;
use crate::reading::message::MessageFile;
use fsl_artifact::{Artifact, members, refs};
use fsl_cluster::Fact;
use fsl_name::Name;
use fsl_repo::{Arrival, ArriveFault, read_artifact};
use fsl_text::{List, MOST_HELD_BYTES, MOST_NAMES, MOST_OF_ARTIFACT, Memory, Text};
use std::alloc::Global;
use std::collections::{BTreeMap, BTreeSet};

/// A set of artifacts: the fact that each gives to the table of clusters, under its name, the number of their bytes, and
/// the names that they refer to and that aren't among theirs.
#[derive(Drop)]
pub struct Gathered {
    pub facts: BTreeMap<Name, Fact>,
    pub bytes: u64,
    pub wanted: BTreeSet<Name>,
}

/// The fact of an artifact of a name, by what it is.
fn named_in(alloc: Global, name: Name, private: bool, artifact: &Artifact) -> Result<Fact, Memory>
    ensures { IfOk result (λ fact. fact ≡ cluster_fact (record { name = name; private = private; artifact = artifact.now })) }
{
    Ok(Fact {
        name,
        private,
        members: members(alloc, artifact)?,
        refs: refs(alloc, artifact)?,
    })
}

/// What an artifact tells the table of clusters. Its bytes are read once.
fn fact_of(alloc: Global, name: Name, private: bool, bytes: &[u8]) -> Result<Fact, Memory>
    ensures { IfOk result (IsFactOf (name, record { private = private; bytes = bytes.now })) }
{
    let artifact = read_artifact(alloc, bytes)?;
    let fact = named_in(alloc, name, private, &artifact);
    // An artifact has so many parts that it is let go here, and not at each end of a function.
    drop(artifact);
    fact
}

/// Adds a name, unless it is that of an artifact.
fn want(wanted: &mut BTreeSet<Name>, facts: &BTreeMap<Name, Fact>, name: Name) -> Result<(), Memory>
    ensures { OnOk result (WantsUnnoted (λ q. bytes_eq q name) facts.now wanted.old wanted.new) }
{
    if facts.contains_key(&name) {
        return Ok(());
    }
    wanted.insert(name)?;
    Ok(())
}

/// Adds those of some names that aren't those of artifacts.
fn want_all(
    wanted: &mut BTreeSet<Name>,
    facts: &BTreeMap<Name, Fact>,
    names: &[Name],
) -> Result<(), Memory>
    ensures { OnOk result (WantsUnnoted (has names.now) facts.now wanted.old wanted.new) }
{
    for name in names {
        want(wanted, facts, *name)?;
    }
    Ok(())
}

/// Puts a fact under its name, which has none yet.
fn note(facts: &mut BTreeMap<Name, Fact>, name: Name, fact: Fact) -> Result<(), Memory>
    ensures { OnOk result (facts.new.entries ≡ insert_entry bytes_cmp facts.old.entries name fact) }
{
    facts.insert(name, fact)?;
    Ok(())
}

/// Makes an artifact public.
fn make_public(facts: &mut BTreeMap<Name, Fact>, name: &Name)
    ensures { MakesPublic name.now facts.old facts.new }
{
    if let Some(fact) = facts.get_mut(name) {
        fact.private = false;
    }
}

/// Facts in the order of their names.
fn in_order(alloc: Global, facts: BTreeMap<Name, Fact>) -> Result<Vec<Fact>, Memory>
    ensures { IfOk result (λ list. list.items ≡ values facts) }
{
    Ok(facts.into_values().collect(alloc)?)
}

/// Whether so many bytes, artifacts and wanted names fit the limits.
fn room(bytes: u128, count: u64, wants: u64) -> Result<Arrival, ArriveFault>
    ensures { result ≡ room_of bytes count wants }
{
    if bytes > MOST_HELD_BYTES || count > MOST_NAMES || wants > MOST_NAMES {
        Err(ArriveFault::Full {
            bytes,
            count,
            wants,
        })
    } else {
        Ok(Arrival::Stored)
    }
}

impl Gathered {
    /// Makes a set without artifacts.
    pub fn empty(alloc: Global) -> Gathered
        ensures { IsGathered fresh result }
    {
        Gathered {
            facts: BTreeMap::new(alloc),
            bytes: 0,
            wanted: BTreeSet::new(alloc),
        }
    }

    /// Adds an artifact whose name isn't there.
    fn add(&mut self, alloc: Global, name: Name, private: bool, bytes: &[u8]) -> Result<(), Memory>
        requires few { self.old.bytes ≤ 2 ^ 30 }
        requires small { length bytes.now ≤ 2 ^ 24 }
        ensures { OnOk result (IsAdded name (record { private = private; bytes = bytes.now }) self.old self.new) }
    {
        let fact = fact_of(alloc, name, private, bytes)?;
        want_all(&mut self.wanted, &self.facts, fact.refs.items())?;
        self.wanted.remove(&name);
        self.bytes += bytes.len() as u64;
        note(&mut self.facts, name, fact)
    }

    /// Stores an artifact whose name isn't there, where there is room.
    fn store(&mut self, alloc: Global, file: MessageFile) -> Result<Arrival, ArriveFault>
        requires few { self.old.bytes ≤ 2 ^ 30 }
        requires absent { is_some (get bytes_cmp self.old.facts file.name) ≡ false }
        requires named { bytes_eq (name_of file.bytes) file.name ≡ true }
        requires small { length file.bytes ≤ 2 ^ 24 }
        ensures { IsGatheredBy file self.old self.new result }
    {
        let MessageFile {
            name,
            bytes,
            private,
        } = file;
        let added = self.add(alloc, name, private, bytes.bytes());
        // The bytes are let go before there are several ends.
        drop(bytes);
        match added {
            Ok(()) => {
                let count = self.facts.len() as u64;
                let wants = self.wanted.len() as u64;
                room(u128::from(self.bytes), count, wants)
            }
            Err(_) => Err(ArriveFault::Memory),
        }
    }

    /// Takes a file into the set, and lets it go.
    ///
    /// Errors: those of an arrival. Behind `Memory`, and behind `Full`, the set is of no use any more.
    pub fn arrive(&mut self, alloc: Global, file: MessageFile) -> Result<Arrival, ArriveFault>
        requires { self.old.bytes ≤ 2 ^ 30 }
        ensures { IsGatheredBy file self.old self.new result }
    {
        let size = file.bytes.bytes().len() as u64;
        if size > MOST_OF_ARTIFACT {
            return Err(ArriveFault::TooLarge { size });
        }
        let found = Name::of(file.bytes.bytes());
        if found != file.name {
            return Err(ArriveFault::NameWrong { found });
        }
        match self.facts.get(&file.name) {
            Some(fact) if !fact.private || file.private => Ok(Arrival::Present),
            Some(_) => {
                make_public(&mut self.facts, &file.name);
                Ok(Arrival::Published)
            }
            None => self.store(alloc, file),
        }
    }
}

/// Takes files into a set one after another. The first that is too large, has another name or finds no room is refused.
///
/// FORMATS: Messages of files
pub fn gather(
    alloc: Global,
    files: List<MessageFile>,
    set: &mut Gathered,
) -> Result<Option<Answer>, Memory>
    requires { IsGathered fresh set.old }
    ensures { IfOk result (HaveGathered files set.new) }
{
    for file in files.into_vec() {
        let name = file.name;
        if let Err(fault) = set.arrive(alloc, file) {
            return Ok(Some(file_refusal(alloc, name, fault)?));
        }
    }
    Ok(None)
}

/// Prints the unclustered and the wanted names of a set, each on a line. `Memory` is the only error.
pub fn print_set(alloc: Global, set: Gathered) -> Result<Text, Memory>
    ensures { IfOk result (λ text. (s : State) → IsGathered s set → IsSetPrinted s (record { status = 0; text = text })) }
{
    let Gathered {
        facts,
        bytes: _,
        wanted,
    } = set;
    drop(wanted);
    let facts = in_order(alloc, facts)?;
    report_of(alloc, &facts)
}
