//! Writes the bytes of a reply.
ghost use Rattle.std.specs.Prelude.{◌≡◌, ◌++◌, IfOk, OnOk, flat_map, option_to_list, take};
ghost use Rattle.fsl_answer.specs.Replies.{error_line, push_line, igot_line, gimme_line, file_lines, seqno_line, reply_text};

use crate::{Lists, SentFile};
use fsl_name::Name;
use fsl_text::{MOST_NOTICES, Memory, Text};
use fsl_wire::{append_error, append_file, append_gimme, append_igot, append_line, append_seqno};
use std::alloc::Global;

/// Adds an error card for each notice, and none for those behind the first 100.
fn append_notices(into: &mut Text, notices: &[Text]) -> Result<(), Memory>
    ensures { OnOk result (into.new ≡ into.old ++ flat_map error_line (take 100 notices.now)) }
{
    let first = &notices[..notices.len().min(MOST_NOTICES)];
    for notice in first {
        append_error(into, notice.bytes())?;
    }
    Ok(())
}

/// Adds a push card, if there are codes.
fn append_codes(into: &mut Text, codes: &Option<(Name, Name)>) -> Result<(), Memory>
    ensures { OnOk result (into.new ≡ into.old ++ flat_map push_line (option_to_list codes.now)) }
{
    match codes {
        Some((server, project)) => append_line(into, &[b"push", &server.text(), &project.text()]),
        None => Ok(()),
    }
}

/// Adds an igot card for each name.
fn append_igots(into: &mut Text, igots: &[(Name, bool)]) -> Result<(), Memory>
    ensures { OnOk result (into.new ≡ into.old ++ flat_map igot_line igots.now) }
{
    for (name, private) in igots {
        append_igot(into, name, *private)?;
    }
    Ok(())
}

/// Adds a gimme card for each name.
fn append_gimmes(into: &mut Text, gimmes: &[Name]) -> Result<(), Memory>
    ensures { OnOk result (into.new ≡ into.old ++ flat_map gimme_line gimmes.now) }
{
    for name in gimmes {
        append_gimme(into, name)?;
    }
    Ok(())
}

/// Adds a file, and before a private one a private card.
fn append_sent(into: &mut Text, file: &SentFile) -> Result<(), Memory>
    ensures { OnOk result (into.new ≡ into.old ++ file_lines file.now) }
{
    if file.private {
        append_line(into, &[b"private"])?;
    }
    append_file(into, &file.name, file.bytes.bytes())
}

/// Adds files.
fn append_files(into: &mut Text, files: &[SentFile]) -> Result<(), Memory>
    ensures { OnOk result (into.new ≡ into.old ++ flat_map file_lines files.now) }
{
    for file in files {
        append_sent(into, file)?;
    }
    Ok(())
}

/// Adds a clone_seqno card, if a clone goes on.
fn append_sequel(into: &mut Text, sequel: &Option<u64>) -> Result<(), Memory>
    ensures { OnOk result (into.new ≡ into.old ++ flat_map seqno_line (option_to_list sequel.now)) }
{
    match sequel {
        Some(next) => append_seqno(into, *next),
        None => Ok(()),
    }
}

/// Writes the bytes of a reply: an error card for each of the first 100 notices, a push card with the codes, igot cards, gimme
/// cards, file cards, each private one behind a private card, and a clone_seqno card. `Memory` is the only error.
/// FORMATS: Users, logins and replies
pub fn frame(alloc: Global, lists: &Lists) -> Result<Text, Memory>
    ensures { IfOk result (λ text. text ≡ reply_text lists.now) }
{
    let mut text = Text::empty(alloc);
    append_notices(&mut text, lists.notices.items())?;
    append_codes(&mut text, &lists.codes)?;
    append_igots(&mut text, lists.igots.items())?;
    append_gimmes(&mut text, lists.gimmes.items())?;
    append_files(&mut text, lists.files.items())?;
    append_sequel(&mut text, &lists.sequel)?;
    Ok(text)
}
