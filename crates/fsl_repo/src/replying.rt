//! Makes the lists of a reply.
ghost use Rattle.std.specs.Prelude.{◌≡◌, ◌++◌, ◌||◌, [], IfOk, map, take, if◌then◌else◌};
ghost use Rattle.std.specs.Option.{option_map};
ghost use Rattle.std.specs.List.Sorted.{IsStrictlySortedBy};
ghost use Rattle.std.specs.FinSet as set;
ghost use Rattle.fsl_order.specs.Names.{bytes_cmp, has};
ghost use Rattle.fsl_order.specs.Rows.{ascending};
ghost use Rattle.fsl_blobs.specs.Fold.{contents};
ghost use Rattle.fsl_cluster.specs.Clusters as clusters;
ghost use Rattle.fsl_repo.specs.Replies.{placed_in};
ghost use Rattle.fsl_repo.specs.Sending.{told_public, told_private, told};

use crate::placed::names_by;
use crate::wanting::wanted;
use fsl_blobs::Blobs;
use fsl_cluster::Clusters;
use fsl_name::{Name, ordered, stands};
use fsl_record::Config;
use fsl_text::{List, MOST_NOTICES, Memory, Text};
use std::alloc::Global;

/// The first 100 notices.
fn front(notices: &[Text]) -> &[Text]
    ensures { result.now ≡ take 100 notices.now }
{
    if notices.len() <= MOST_NOTICES {
        notices
    } else {
        &notices[..MOST_NOTICES]
    }
}

/// Copies of the first 100 notices.
pub(crate) fn first_notices(alloc: Global, notices: &[Text]) -> Result<List<Text>, Memory>
    ensures { IfOk result (λ copies. copies ≡ take 100 notices.now) }
{
    let first = front(notices);
    let mut copies = Vec::new(alloc);
    for notice in first {
        copies.push(Text::of(alloc, notice.bytes())?)?;
    }
    Ok(List::from_vec(copies))
}

/// The codes of the server and of its project, for a clone.
pub(crate) fn codes_of(config: &Config, clone: Option<(u64, u64)>) -> Option<(Name, Name)>
    ensures { result ≡ option_map (λ numbers. (config.now.server, config.now.project)) clone }
{
    match clone {
        Some(_) => Some((config.server, config.project)),
        None => None,
    }
}

/// The public names that a reply tells: all of them, or those that stand in no cluster, or none.
fn public_names(
    alloc: Global,
    blobs: &Blobs,
    table: &Clusters,
    all: bool,
    pull: bool,
) -> Result<Vec<Name>, Memory>
    ensures { IfOk result (λ names. names.items ≡ told_public (placed_in blobs.now.records) (clusters.unclustered table.now.facts) all pull) }
{
    if all {
        return names_by(alloc, blobs, false);
    }
    if pull {
        let names = table.unclustered(alloc)?;
        return Ok(names.into_vec());
    }
    Ok(Vec::new(alloc))
}

/// The private names that it tells.
fn private_names(
    alloc: Global,
    blobs: &Blobs,
    private: bool,
    all: bool,
    pull: bool,
) -> Result<Vec<Name>, Memory>
    ensures { IfOk result (λ names. names.items ≡ told_private (placed_in blobs.now.records) private (pull || all)) }
{
    if private && (pull || all) {
        return names_by(alloc, blobs, true);
    }
    Ok(Vec::new(alloc))
}

/// Names with true beside those that are private.
fn flagged(alloc: Global, names: &[Name], private: &[Name]) -> Result<Vec<(Name, bool)>, Memory>
    requires { IsStrictlySortedBy bytes_cmp private.now }
    ensures { IfOk result (λ list. list.items ≡ map (λ name. (name, has private.now name)) names.now) }
{
    let mut list = Vec::new(alloc);
    for name in names {
        list.push((*name, stands(private, name)))?;
    }
    Ok(list)
}

/// The names that a reply tells, ascending, with true beside the private ones.
pub(crate) fn told_names(
    alloc: Global,
    blobs: &Blobs,
    table: &Clusters,
    private: bool,
    all: bool,
    pull: bool,
) -> Result<List<(Name, bool)>, Memory>
    ensures { IfOk result (λ list. list ≡ told (told_public (placed_in blobs.now.records) (clusters.unclustered table.now.facts) all pull) (told_private (placed_in blobs.now.records) private (pull || all))) }
{
    let mut names = public_names(alloc, blobs, table, all, pull)?;
    let hidden = private_names(alloc, blobs, private, all, pull)?;
    names.extend_from_slice(&hidden)?;
    let names = ordered(names);
    let list = flagged(alloc, &names, &ordered(hidden))?;
    Ok(List::from_vec(list))
}

/// The wanted and the announced names, ascending, where they are asked for.
pub(crate) fn asked_for(
    alloc: Global,
    blobs: &Blobs,
    table: &Clusters,
    push: bool,
) -> Result<List<Name>, Memory>
    ensures { IfOk result (λ names. names ≡ (if push then ascending (clusters.wants table.now.facts (set.items (contents blobs.now.records).shunned) ++ set.items blobs.now.announced) else [])) }
{
    if !push {
        return Ok(List::new(alloc));
    }
    let wanted = wanted(alloc, table, blobs)?;
    let announced = blobs.announced(alloc)?;
    let mut names = wanted.into_vec();
    names.extend_from_slice(announced.items())?;
    Ok(List::from_vec(ordered(names)))
}
