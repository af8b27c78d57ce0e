//! Writes the bodies of requests.
ghost use Rattle.std.specs.Prelude.{◌≡◌, ◌∷◌, ◌++◌, [], map, IfOk, IfErr, OnOk};
ghost use Rattle.fsl_name.specs.Name.{name_text};
ghost use Rattle.fsl_wire.specs.declared.WireCard.TheVariants as card_is;
ghost use Rattle.fsl_wire.specs.Writing.{message_bytes};
ghost use Rattle.fsl_pull.specs.Requests.{signature_of, login_line, signed_bytes, request_bytes, clone_cards, igot_card};
ghost use Rattle.fsl_pull.specs.Reading.{IsOnlyRead};
ghost use Rattle.fsl_pull.specs.Reads.{FileFails, FilesFail, ArePut, IsPushed};

use crate::reading::read_public;
use crate::{Login, PullFault};
use fsl_disk::Disk;
use fsl_name::Name;
use fsl_record::Config;
use fsl_repo::Repo;
use fsl_text::{List, Memory, Text, escape};
use fsl_wire::{Message, WireCard, append_file, append_gimme, append_igot, append_line, write};
use std::alloc::Global;

/// The signature of a message with this nonce: the name of the nonce and the secret, in digits.
fn signature(alloc: Global, nonce: &[u8], secret: &[u8]) -> Result<[u8; 40], Memory>
    ensures { IfOk result (λ digits. digits ≡ signature_of nonce.now secret.now) }
{
    let mut signed = Text::of(alloc, nonce)?;
    signed.append(secret)?;
    Ok(Name::of(signed.bytes()).text())
}

/// The line of a login before the rest of its message. Its nonce is the name of that rest, in digits.
fn login_of(alloc: Global, login: &Login, rest: &[u8]) -> Result<Text, Memory>
    ensures { IfOk result (λ text. text ≡ login_line login.now rest.now) }
{
    let nonce = Name::of(rest).text();
    let signature = signature(alloc, &nonce, login.secret.bytes())?;
    let user = escape(alloc, login.user.bytes())?;
    let mut text = Text::empty(alloc);
    append_line(&mut text, &[b"login", user.bytes(), &nonce, &signature])?;
    Ok(text)
}

/// A message behind the line of a login, where one is given.
fn signed(alloc: Global, login: &Option<Login>, message: Text) -> Result<Text, Memory>
    ensures { IfOk result (λ text. text ≡ signed_bytes login.now message) }
{
    match login {
        None => Ok(message),
        Some(login) => {
            let mut text = login_of(alloc, login, message.bytes())?;
            text.append(message.bytes())?;
            Ok(text)
        }
    }
}

/// Puts a gimme card for each name at the end of a message.
fn append_gimmes(into: &mut Text, names: &[Name]) -> Result<(), Memory>
    ensures { OnOk result (into.new ≡ into.old ++ message_bytes (map card_is.Gimme names.now)) }
{
    for name in names {
        append_gimme(into, name)?;
    }
    Ok(())
}

/// The request of a pull: the codes of the repository, and the names that it asks for.
pub(crate) fn pull_request(
    alloc: Global,
    login: &Option<Login>,
    config: &Config,
    names: &[Name],
) -> Result<Text, Memory>
    ensures { IfOk result (λ text. text ≡ signed_bytes login.now
        (message_bytes (card_is.Pull (name_text config.now.server) (name_text config.now.project) ∷ map card_is.Gimme names.now))) }
{
    let mut message = Text::empty(alloc);
    let server = config.server.text();
    let project = config.project.text();
    append_line(&mut message, &[b"pull", &server, &project])?;
    append_gimmes(&mut message, names)?;
    signed(alloc, login, message)
}

/// Puts an igot card for each public name at the end of a message.
fn append_igots(into: &mut Text, names: &[Name]) -> Result<(), Memory>
    ensures { OnOk result (into.new ≡ into.old ++ message_bytes (map igot_card names.now)) }
{
    for name in names {
        append_igot(into, name, false)?;
    }
    Ok(())
}

/// The front of a push: the codes of the repository, and the names that it announces.
fn push_front(alloc: Global, config: &Config, names: &[Name]) -> Result<Text, Memory>
    ensures { IfOk result (λ text. text ≡
        message_bytes (card_is.Push (name_text config.now.server) (name_text config.now.project) ∷ map igot_card names.now)) }
{
    let mut message = Text::empty(alloc);
    let server = config.server.text();
    let project = config.project.text();
    append_line(&mut message, &[b"push", &server, &project])?;
    append_igots(&mut message, names)?;
    Ok(message)
}

/// Puts the file of a name as it is read at the end of a message, where it is held as public.
fn append_public<D: Disk>(into: &mut Text, repo: &mut Repo<D>, name: Name) -> Result<(), PullFault>
    ensures file { OnOk result (ArePut repo.old.seen.state (name ∷ []) into.old into.new) }
    ensures fault { IfErr result (λ why. FileFails why repo.old.seen.state name repo.new.seen.state) }
    ensures count { OnOk result (repo.new.seen.state ≡ repo.old.seen.state) }
    ensures repo { IsOnlyRead D.state repo.old repo.new }
{
    let bytes = match read_public(repo, name) {
        Ok(Some(bytes)) => bytes,
        Ok(None) => return Ok(()),
        Err(fault) => return Err(fault),
    };
    match append_file(into, &name, bytes.bytes()) {
        Ok(()) => Ok(()),
        Err(_) => Err(PullFault::Memory),
    }
}

/// Puts the files of those of some names that are held as public at the end of a message, each as it is read.
fn append_files<D: Disk>(
    into: &mut Text,
    repo: &mut Repo<D>,
    names: &[Name],
) -> Result<(), PullFault>
    ensures files { OnOk result (ArePut repo.old.seen.state names.now into.old into.new) }
    ensures fault { IfErr result (λ why. FilesFail why repo.old.seen.state names.now repo.new.seen.state) }
    ensures count { OnOk result (repo.new.seen.state ≡ repo.old.seen.state) }
    ensures repo { IsOnlyRead D.state repo.old repo.new }
{
    for name in names {
        match append_public(into, repo, *name) {
            Ok(()) => {}
            Err(fault) => return Err(fault),
        }
    }
    Ok(())
}

/// The request of a push: the codes of the repository, the names that it announces, and the files of names that it sends,
/// each as it is read.
pub(crate) fn push_request<D: Disk>(
    alloc: Global,
    login: &Option<Login>,
    repo: &mut Repo<D>,
    names: &[Name],
    due: &[Name],
) -> Result<Text, PullFault>
    ensures request { IfOk result (IsPushed login.now repo.old.seen.state names.now due.now) }
    ensures fault { IfErr result (λ why. FilesFail why repo.old.seen.state due.now repo.new.seen.state) }
    ensures count { OnOk result (repo.new.seen.state ≡ repo.old.seen.state) }
    ensures repo { IsOnlyRead D.state repo.old repo.new }
{
    let mut message = match push_front(alloc, repo.config(), names) {
        Ok(message) => message,
        Err(_) => return Err(PullFault::Memory),
    };
    match append_files(&mut message, repo, due) {
        Ok(()) => {}
        Err(fault) => return Err(fault),
    }
    match signed(alloc, login, message) {
        Ok(request) => Ok(request),
        Err(_) => Err(PullFault::Memory),
    }
}

/// The request of a clone: the files from a place on.
pub(crate) fn clone_request(alloc: Global, login: &Option<Login>, from: u64) -> Result<Text, Memory>
    ensures { IfOk result (λ text. text ≡ request_bytes login.now (clone_cards from)) }
{
    let mut cards = Vec::new(alloc);
    cards.push(WireCard::Clone {
        from: Some((3, from)),
    })?;
    let message = write(alloc, &Message::of(List::from_vec(cards)))?;
    signed(alloc, login, message)
}
