//! Holds a post without its name.
ghost use Rattle.std.specs.Prelude.{◌≡◌, IfOk};
ghost use Rattle.std.specs.Option.{option_or};
ghost use Rattle.fsl_forum.specs.Held.{fact_of};
ghost use Rattle.fsl_forum.specs.Kept.{place_by};
ghost use Rattle.fsl_forum.specs.Rows.{row_by};
ghost use Rattle.fsl_forum.specs.Threads.{kind, shown};

use super::{Post, PostKind};
use fsl_date::Moment;
use fsl_name::Name;
use fsl_text::{Memory, Text};
use std::alloc::Global;

/// What a post has beside its name.
#[derive(Drop)]
pub(crate) struct Node {
    pub date: Moment,
    pub user: Text,
    pub root: Option<Name>,
    pub reply: Option<Name>,
    pub prior: Option<Name>,
}

/// The row of a post: its thread, and what it is.
pub(crate) type Row = (Name, PostKind);

impl Node {
    /// Returns the next post: the one it replies to, else the one it edits.
    pub fn next(&self) -> Option<Name>
        ensures { result ≡ option_or self.now.reply self.now.prior }
    {
        match self.reply {
            Some(reply) => Some(reply),
            None => self.prior,
        }
    }

    /// What the post of this name is.
    fn kind(&self, name: Name) -> PostKind
        ensures { result ≡ kind (fact_of (name, self.now)) }
    {
        match (self.prior, self.reply) {
            (Some(_), _) => PostKind::Edit,
            (None, Some(_)) => PostKind::Reply,
            (None, None) => PostKind::Start,
        }
    }

    /// Returns the thread of the post of this name by the end of its chain. That end is `None` where the chain is broken. A post
    /// isn't valid, and the answer is `None`, where the chain has an end and the post names another root. Else the thread is the
    /// end, or for a broken chain the root that the post names, or itself.
    pub fn place(&self, name: Name, end: Option<Name>) -> Option<Name>
        ensures { result ≡ place_by end (fact_of (name, self.now)) }
    {
        let Some(end) = end else {
            return Some(self.root.unwrap_or(name));
        };
        match &self.root {
            Some(root) if *root != end => None,
            _ => Some(end),
        }
    }

    /// Returns the row of the post of this name by the end of its chain.
    pub fn row(&self, name: Name, end: Option<Name>) -> Option<Row>
        ensures { result ≡ row_by end (fact_of (name, self.now)) }
    {
        match self.place(name, end) {
            None => None,
            Some(root) => Some((root, self.kind(name))),
        }
    }

    /// Returns the post of this name as its thread shows it. `Memory` is the only error.
    pub fn post(&self, alloc: Global, name: Name) -> Result<Post, Memory>
        ensures { IfOk result (λ post. post ≡ shown (fact_of (name, self.now))) }
    {
        Ok(Post {
            name,
            date: self.date,
            user: Text::of(alloc, self.user.bytes())?,
            how: self.kind(name),
        })
    }
}
