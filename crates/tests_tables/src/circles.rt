//! Facts in a circle, which no artifacts make, since each name stands for what is named in it.
use crate::names::{are_distinct, letter, names_of};
use fsl_forum::{PostKind, Threads, end_by_next};
use fsl_leaves::Leaves;
use fsl_links::Links;
use fsl_name::Name;
use fsl_tags::effective_by_parent;
use fsl_text::{Memory, Text};
use std::alloc::Global;
use tests_kit::moment;

/// A check-in with a parent.
fn child(alloc: Global, name: u8, parent: u8) -> Result<fsl_links::Fact, Memory> {
    let parents = names_of(alloc, &[parent])?;
    Ok(fsl_links::Fact {
        name: letter(name),
        parents,
    })
}

/// The check-ins `r` and `p`, of which each is the parent of the other.
fn links(alloc: Global) -> Result<Links, Memory> {
    let facts = [child(alloc, b'r', b'p')?, child(alloc, b'p', b'r')?];
    if !are_distinct(facts[0].name, facts[1].name) {
        return Err(Memory);
    }
    Links::build(alloc, &facts)
}

/// Whether `p` is the one child of `r`, and its primary parent.
fn are_around(alloc: Global, links: &Links) -> Result<bool, Memory> {
    let children = links.children(alloc, letter(b'r'))?;
    let is_child = children.items() == [letter(b'p')].as_slice();
    Ok(is_child && links.primary(letter(b'r')) == Some(letter(b'p')))
}

fn linked(alloc: Global) -> Result<bool, Memory> {
    let links = links(alloc)?;
    let are = are_around(alloc, &links);
    drop(links);
    are
}

#[test]
fn parents_in_a_circle_are_children(rt: HostRuntime) -> Result<(), Memory> {
    effective_by_parent();
    end_by_next();
    assert!(rt; linked(rt.alloc())?);
    Ok(())
}

/// A check-in with a parent, in the trunk.
fn grown(alloc: Global, name: u8, parent: u8) -> Result<fsl_leaves::Fact, Memory> {
    let parents = names_of(alloc, &[parent])?;
    let branch = Text::of(alloc, b"trunk")?;
    Ok(fsl_leaves::Fact {
        name: letter(name),
        parents,
        branch,
    })
}

/// Two check-ins of which each is the parent of the other.
fn leaves(alloc: Global) -> Result<Leaves, Memory> {
    let facts = [grown(alloc, b'r', b'p')?, grown(alloc, b'p', b'r')?];
    if !are_distinct(facts[0].name, facts[1].name) {
        return Err(Memory);
    }
    Leaves::build(alloc, &facts)
}

/// How many leaves they have.
fn count_leaves(alloc: Global) -> Result<usize, Memory> {
    let table = leaves(alloc)?;
    let found = table.leaves(alloc);
    drop(table);
    Ok(found?.items().len())
}

#[test]
fn check_ins_in_a_circle_have_no_leaf(rt: HostRuntime) -> Result<(), Memory> {
    assert_eq!(rt; count_leaves(rt.alloc())?, 0);
    Ok(())
}

/// A post that replies to one and edits another.
fn reply_and_edit(alloc: Global) -> Result<fsl_forum::Fact, Memory> {
    let date = moment(1)?;
    Ok(fsl_forum::Fact {
        name: letter(b'a'),
        date,
        user: Text::of(alloc, b"ann")?,
        root: Some(letter(b'm')),
        reply: Some(letter(b'k')),
        prior: Some(letter(b'q')),
    })
}

#[test]
fn a_post_that_replies_and_edits_follows_its_reply(rt: HostRuntime) -> Result<(), Memory> {
    let both = reply_and_edit(rt.alloc())?;
    assert_eq!(rt;
        (both.next(), both.kind()),
        (Some(letter(b'k')), PostKind::Edit)
    );
    Ok(())
}

/// A post that replies to another, with the root `m`, which isn't there.
fn reply(alloc: Global, name: u8, date: i64, reply: u8) -> Result<fsl_forum::Fact, Memory> {
    let date = moment(date)?;
    Ok(fsl_forum::Fact {
        name: letter(name),
        date,
        user: Text::of(alloc, b"ann")?,
        root: Some(letter(b'm')),
        reply: Some(letter(reply)),
        prior: None,
    })
}

/// The posts `r` and, later, `p`, which reply to each other.
fn threads(alloc: Global) -> Result<Threads, Memory> {
    let facts = [reply(alloc, b'p', 2, b'r')?, reply(alloc, b'r', 1, b'p')?];
    if !are_distinct(facts[0].name, facts[1].name) {
        return Err(Memory);
    }
    Threads::build(alloc, &facts)
}

/// The posts of the thread `m`, in their order, and the thread of `p`.
fn placed(alloc: Global) -> Result<(Vec<Name>, Option<Name>), Memory> {
    let threads = threads(alloc)?;
    let posts = threads.thread(alloc, letter(b'm'));
    let place = threads.place(letter(b'p'));
    drop(threads);
    let mut names = Vec::new(alloc);
    for post in posts?.items() {
        names.push(post.name)?;
    }
    Ok((names, place))
}

#[test]
fn posts_in_a_circle_are_in_the_thread_that_they_name(rt: HostRuntime) -> Result<(), Memory> {
    let (names, place) = placed(rt.alloc())?;
    assert!(rt; names.as_slice() == [letter(b'r'), letter(b'p')].as_slice());
    assert_eq!(rt; place, Some(letter(b'm')));
    Ok(())
}

/// A cluster of one member.
fn cluster(alloc: Global, name: u8, member: u8) -> Result<fsl_cluster::Fact, Memory> {
    let members = names_of(alloc, &[member])?;
    let refs = names_of(alloc, &[member])?;
    Ok(fsl_cluster::Fact {
        name: letter(name),
        private: false,
        members,
        refs,
    })
}

/// How many of two clusters of each other are unclustered.
fn count_unclustered(alloc: Global) -> Result<usize, Memory> {
    let facts = [cluster(alloc, b'r', b'p')?, cluster(alloc, b'p', b'r')?];
    Ok(fsl_cluster::unclustered(alloc, &facts)?.items().len())
}

#[test]
fn clusters_in_a_circle_are_clustered(rt: HostRuntime) -> Result<(), Memory> {
    assert_eq!(rt; count_unclustered(rt.alloc())?, 0);
    Ok(())
}
