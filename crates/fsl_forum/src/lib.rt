//! Finds the threads of forum posts. `Threads` is the table of them. It answers as the definitions do over the facts that it
//! holds. It is the same in whatever order these came: that is the law `fsl_order::by_name_in_any_order`. One call adds a post,
//! and another one replaces a post. Each returns the names whose rows differ, and can be undone.
//!
//! The table keeps the posts by name, the pairs of a next post and one that has it, the end of each whole chain, and the pairs of
//! a thread and a valid post in it. When a post comes or changes, all posts whose chains lead to it share one end before, and one
//! after. They are visited, along the pairs, only where the post has or gets an end.
#![tactic(auto)]

ghost use Rattle.std.specs.Prelude.{◌≡◌};
ghost use Rattle.fsl_forum.specs.Threads.{next, kind, EndByNext, WholeStays, InvalidStays};

mod build;
mod chains;
mod gathered;
mod maps;
mod node;
mod put;
mod reached;
mod rows;
mod threads;

use fsl_date::Moment;
use fsl_name::Name;
use fsl_text::Text;
pub use threads::{Threads, Undo};

/// A forum post with the names of its G, I and P cards.
#[derive(Drop)]
pub struct Fact {
    /// The name of its artifact.
    pub name: Name,
    /// The date of its artifact.
    pub date: Moment,
    /// The user of its artifact.
    pub user: Text,
    /// The root in its G card.
    pub root: Option<Name>,
    /// The post that it replies to, from its I card. That post need not be there.
    pub reply: Option<Name>,
    /// The post that it edits, from its P card. That post need not be there.
    pub prior: Option<Name>,
}

impl Fact {
    /// Returns the next post of its chain: the one it replies to, else the one it edits. It is `None` where it has neither.
    pub fn next(&self) -> Option<Name>
        ensures { result ≡ next self.now }
    {
        match self.reply {
            Some(reply) => Some(reply),
            None => self.prior,
        }
    }

    /// Returns its kind. It is an edit where it edits a post, else a reply where it replies to one, else a start.
    pub fn kind(&self) -> PostKind
        ensures { result ≡ kind self.now }
    {
        match (self.prior, self.reply) {
            (Some(_), _) => PostKind::Edit,
            (None, Some(_)) => PostKind::Reply,
            (None, None) => PostKind::Start,
        }
    }
}

/// The kind of a post.
#[derive(Clone, Copy, PartialEq, Eq, Debug)]
pub enum PostKind {
    /// The post starts a thread.
    Start,
    /// The post edits another post.
    Edit,
    /// The post replies to another post.
    Reply,
}

/// A valid post in its thread.
#[derive(Drop)]
pub struct Post {
    /// The name of its artifact.
    pub name: Name,
    /// The date of its artifact.
    pub date: Moment,
    /// The user of its artifact.
    pub user: Text,
    /// The kind of the post.
    pub how: PostKind,
}

/// A post without a next post ends its own chain, and every other post's chain has the end of its next post's. A whole chain
/// stays as it is when a post comes. This is a law and no code.
pub fn end_by_next()
    ensures by_next { EndByNext }
    ensures stays { WholeStays }
{}

/// A post that isn't valid stays so when another comes. This is a law and no code.
pub fn invalid_stays()
    ensures { InvalidStays }
{}
