//! What a repository shows, as one text: its reports, and what its tables tell that no report does.
use fsl_blobs::{BlobState, Placed};
use fsl_cross::Values;
use fsl_disk::{Disk, MemoryDisk};
use fsl_name::Name;
use fsl_query::{QueryFault, refusal_text, report};
use fsl_repo::Repo;
use fsl_text::{List, Memory, Text};
use fsl_words::Question;
use std::alloc::Global;
use tests_kit::loaded;

/// What is shown, and whether there was memory for all of it and nothing went wrong on the way to it.
#[derive(Drop)]
pub(crate) struct Shown {
    text: Vec<u8>,
    is_whole: bool,
}

impl Shown {
    pub(crate) fn new(alloc: Global) -> Shown {
        Shown {
            text: Vec::new(alloc),
            is_whole: true,
        }
    }

    /// Unless this is good, it is like no other, nor like itself.
    pub(crate) fn fails_unless(&mut self, good: bool) {
        self.is_whole = self.is_whole && good;
    }

    /// Whether both show the same.
    pub(crate) fn is_like(&self, other: &Shown) -> bool {
        self.is_whole && other.is_whole && self.text.as_slice() == other.text.as_slice()
    }

    /// Shows bytes as they are.
    fn put(&mut self, bytes: &[u8]) {
        if self.text.extend_from_slice(bytes).is_err() {
            self.is_whole = false;
        }
    }

    fn number(&mut self, number: u64) {
        self.put(number.to_be_bytes().as_slice());
    }

    /// Shows a text behind its length.
    fn text(&mut self, text: &[u8]) {
        self.number(text.len() as u64);
        self.put(text);
    }

    fn name(&mut self, name: Name) {
        self.put(name.bytes().as_slice());
    }
}

/// A question that takes a text.
#[derive(Clone, Copy)]
enum Ask {
    Tags,
    Tip,
    Files,
    Wiki,
    Ticket,
    Thread,
}

impl Ask {
    /// The question, of this text.
    fn about(self, text: Text) -> Question {
        match self {
            Ask::Tags => Question::Tags { prefix: text },
            Ask::Tip => Question::Tip { symbol: text },
            Ask::Files => Question::Files { prefix: text },
            Ask::Wiki => Question::Wiki { title: text },
            Ask::Ticket => Question::Ticket { prefix: text },
            Ask::Thread => Question::Thread { prefix: text },
        }
    }
}

/// Shows a text, if there was memory for it.
fn show_text(into: &mut Shown, text: Result<Text, Memory>) {
    match &text {
        Ok(text) => into.text(text.bytes()),
        Err(_) => into.fails_unless(false),
    }
    drop(text);
}

/// Shows a report, or the text of its refusal.
pub(crate) fn show_answer(alloc: Global, into: &mut Shown, answer: Result<Text, QueryFault>) {
    match answer {
        Ok(text) => show_text(into, Ok(text)),
        Err(QueryFault::Refused(refused)) => {
            show_text(into, refusal_text(alloc, &refused));
            drop(refused);
        }
        Err(_) => into.fails_unless(false),
    }
}

/// Shows what answers a question.
fn show<D: Disk>(alloc: Global, into: &mut Shown, repo: &mut Repo<D>, question: Question) {
    let answer = report(alloc, repo, &question);
    drop(question);
    show_answer(alloc, into, answer);
}

/// Shows what answers a question that takes a text.
fn show_about<D: Disk>(alloc: Global, into: &mut Shown, repo: &mut Repo<D>, ask: Ask, text: &[u8]) {
    match Text::of(alloc, text) {
        Ok(text) => show(alloc, into, repo, ask.about(text)),
        Err(_) => into.fails_unless(false),
    }
}

/// A name, and whether it is held, as what.
fn show_state<D: Disk>(into: &mut Shown, repo: &Repo<D>, name: Name) {
    into.put(name.bytes().as_slice());
    into.number(match repo.state(name) {
        BlobState::Absent => 0,
        BlobState::Shunned => 1,
        BlobState::Private { size: _ } => 2,
        BlobState::Public { size: _ } => 3,
    });
}

/// The values of a check-in, if it is one and there was memory for them.
fn show_values(into: &mut Shown, values: Result<Option<Values>, Memory>) {
    match &values {
        Ok(Some(values)) => {
            into.text(values.comment.bytes());
            into.text(values.user.bytes());
            into.text(values.branch.bytes());
        }
        Ok(None) => {}
        Err(_) => into.fails_unless(false),
    }
    drop(values);
}

/// The same, its branch and its values, and what the reports say of it.
fn show_name<D: Disk>(alloc: Global, into: &mut Shown, repo: &mut Repo<D>, name: Name) {
    show_state(into, repo, name);
    into.text(repo.tables().branch(name));
    show_values(into, repo.tables().values(alloc, name));
    show_about(alloc, into, repo, Ask::Tags, name.text().as_slice());
    show_about(alloc, into, repo, Ask::Files, name.text().as_slice());
    show_about(alloc, into, repo, Ask::Thread, name.text().as_slice());
}

/// Shows a list of names, if there was memory for it.
fn show_names(into: &mut Shown, names: Result<List<Name>, Memory>) {
    match &names {
        Ok(names) => {
            into.number(names.items().len() as u64);
            for name in names.items() {
                into.put(name.bytes().as_slice());
            }
        }
        Err(_) => into.fails_unless(false),
    }
    drop(names);
}

/// The shunned names, those that stand in no cluster and those that are missing, the reports on all artifacts, on two
/// branches, a page and a ticket, and those on what there is.
fn show_lists<D: Disk>(alloc: Global, into: &mut Shown, repo: &mut Repo<D>) {
    show_names(into, repo.shuns());
    show_names(into, repo.tables().cluster().unclustered(alloc));
    show_names(into, repo.tables().cluster().missing(alloc));
    show(alloc, into, repo, Question::Phantoms);
    show(alloc, into, repo, Question::Leaves);
    show(alloc, into, repo, Question::Timeline { count: 1000 });
    show_about(alloc, into, repo, Ask::Tip, b"trunk");
    show_about(alloc, into, repo, Ask::Tip, b"b");
    show_about(alloc, into, repo, Ask::Wiki, b"Home");
    show_about(alloc, into, repo, Ask::Ticket, b"1111");
    show(alloc, into, repo, Question::Branches);
    show(alloc, into, repo, Question::Pages);
    show(alloc, into, repo, Question::Threads);
    let fields = List::new(alloc);
    show(alloc, into, repo, Question::Tickets { fields });
}

/// What is like no other, nor like itself.
pub(crate) fn unlike_all(alloc: Global) -> Shown {
    let mut shown = Shown::new(alloc);
    shown.fails_unless(false);
    shown
}

/// The held names by place; none for want of memory.
pub(crate) fn held<D: Disk>(alloc: Global, repo: &Repo<D>) -> List<Placed> {
    match repo.held(0) {
        Ok(held) => held,
        Err(_) => List::new(alloc),
    }
}

/// The held names by place. For want of memory none, and what is shown is like no other.
fn held_for<D: Disk>(alloc: Global, into: &mut Shown, repo: &Repo<D>) -> List<Placed> {
    match repo.held(0) {
        Ok(held) => held,
        Err(_) => {
            into.fails_unless(false);
            List::new(alloc)
        }
    }
}

/// The held names by place with what the reports say of each, and all lists.
pub(crate) fn show_all<D: Disk>(alloc: Global, repo: &mut Repo<D>) -> Shown {
    let mut into = Shown::new(alloc);
    for placed in held_for(alloc, &mut into, repo).items() {
        into.number(placed.place);
        show_name(alloc, &mut into, repo, placed.name);
    }
    show_lists(alloc, &mut into, repo);
    show(alloc, &mut into, repo, Question::Info);
    into
}

/// What a repository shows whatever the order in which its artifacts came: how many it holds, what is said of each of these,
/// and all lists.
pub(crate) fn show_of<D: Disk>(alloc: Global, repo: &mut Repo<D>, artifacts: &[&[u8]]) -> Shown {
    let mut into = Shown::new(alloc);
    let count = held_for(alloc, &mut into, repo).items().len();
    into.number(count as u64);
    for bytes in artifacts {
        show_name(alloc, &mut into, repo, Name::of(*bytes));
    }
    show_lists(alloc, &mut into, repo);
    show(alloc, &mut into, repo, Question::Info);
    into
}

/// What two repositories of a project show alike that hold the same: how many artifacts, the state of each of these names, and
/// all lists. Not what the file is: each has a server's code of its own.
pub(crate) fn show_many<D: Disk>(alloc: Global, repo: &mut Repo<D>, names: &[Placed]) -> Shown {
    let mut into = Shown::new(alloc);
    let count = held_for(alloc, &mut into, repo).items().len();
    into.number(count as u64);
    for placed in names {
        show_state(&mut into, repo, placed.name);
    }
    show_lists(alloc, &mut into, repo);
    into
}

/// What a disk shows that is loaded; where it doesn't load, what is like no other.
pub(crate) fn shown_by(alloc: Global, disk: MemoryDisk) -> Shown {
    match loaded(alloc, disk) {
        Some(mut repo) => {
            let shown = show_all(alloc, &mut repo);
            drop(repo.close());
            shown
        }
        None => unlike_all(alloc),
    }
}
