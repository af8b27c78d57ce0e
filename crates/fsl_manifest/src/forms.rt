//! Reads F and Q cards.
ghost use Rattle.std.specs.Prelude.{◌≡◌, option_map};
ghost use Rattle.fsl_grammar.specs.Forms.{optional};
ghost use Rattle.fsl_grammar.specs.Reading.{IsGiven};
ghost use Rattle.fsl_manifest.specs.Manifests.{back_in, file_form, file_in, path_in, perm_in, perm_or_plain, pick_form, pick_in};

use crate::{FileCard, Perm, Pick};
use fsl_grammar::{Form, Unread, read_optional_ref, read_ref};
use fsl_text::{Text, path_ok, unescape};
use std::alloc::Global;

/// A path, and behind it a hash, a permission and a former path, each of which may be missing with what follows it.
pub struct FileForm;

impl Form for FileForm {
    type Value = FileCard;

    ghost form = { file_form };

    fn read(alloc: Global, args: &[Text]) -> Result<FileCard, Unread> {
        match args {
            [path] => read_file(alloc, path, None, None, None),
            [path, hash] => read_file(alloc, path, Some(hash), None, None),
            [path, hash, perm] => read_file(alloc, path, Some(hash), Some(perm), None),
            [path, hash, perm, former] => {
                read_file(alloc, path, Some(hash), Some(perm), Some(former))
            }
            _ => Err(Unread::Form),
        }
    }
}

/// `+` or `-` with a hash, and behind it another hash, which may be missing.
pub struct PickForm;

impl Form for PickForm {
    type Value = Pick;

    ghost form = { pick_form };

    fn read(_alloc: Global, args: &[Text]) -> Result<Pick, Unread> {
        match args {
            [target] => read_pick(target.bytes(), None),
            [target, other] => read_pick(target.bytes(), Some(other)),
            _ => Err(Unread::Form),
        }
    }
}

fn read_file(
    alloc: Global,
    path: &Text,
    hash: Option<&Text>,
    perm: Option<&Text>,
    former: Option<&Text>,
) -> Result<FileCard, Unread>
    ensures { IsGiven (file_in path.now (option_map (λ text. text.now) hash.entry) (option_map (λ text. text.now) perm.entry) (option_map (λ text. text.now) former.entry)) result }
{
    let path = read_path(alloc, path.bytes())?;
    let hash = read_optional_ref(hash).ok_or(Unread::Form)?;
    let perm = read_optional_perm(perm).ok_or(Unread::Form)?;
    let former = read_optional_path(alloc, former)?;
    Ok(FileCard {
        path,
        hash,
        perm,
        former,
    })
}

/// Decodes the path of an argument.
fn read_path(alloc: Global, arg: &[u8]) -> Result<Text, Unread>
    ensures { IsGiven (path_in arg.now) result }
{
    let path = unescape(alloc, arg)?;
    if path_ok(path.bytes()) {
        Ok(path)
    } else {
        Err(Unread::Form)
    }
}

fn read_optional_path(alloc: Global, arg: Option<&Text>) -> Result<Option<Text>, Unread>
    ensures { IsGiven (optional path_in (option_map (λ text. text.now) arg.entry)) result }
{
    match arg {
        Some(arg) => Ok(Some(read_path(alloc, arg.bytes())?)),
        None => Ok(None),
    }
}

fn read_perm(arg: &[u8]) -> Option<Perm>
    ensures { result ≡ perm_in arg.now }
{
    if arg == b"x".as_slice() {
        Some(Perm::Exec)
    } else if arg == b"l".as_slice() {
        Some(Perm::Symlink)
    } else if arg == b"w".as_slice() {
        Some(Perm::Writable)
    } else {
        None
    }
}

/// Reads the permission of an argument that may be missing, and then is plain. Returns `None` if it is there and no permission.
fn read_optional_perm(arg: Option<&Text>) -> Option<Perm>
    ensures { result ≡ option_map perm_or_plain (optional perm_in (option_map (λ text. text.now) arg.entry)) }
{
    match arg {
        Some(arg) => read_perm(arg.bytes()),
        None => Some(Perm::Plain),
    }
}

fn read_back(sign: u8) -> Option<bool>
    ensures { result ≡ back_in sign }
{
    match sign {
        b'+' => Some(false),
        b'-' => Some(true),
        _ => None,
    }
}

fn read_pick(target: &[u8], other: Option<&Text>) -> Result<Pick, Unread>
    ensures { IsGiven (pick_in target.now (option_map (λ text. text.now) other.entry)) result }
{
    let (sign, hash) = target.split_first().ok_or(Unread::Form)?;
    let back = read_back(*sign).ok_or(Unread::Form)?;
    let target = read_ref(hash).ok_or(Unread::Form)?;
    let other = read_optional_ref(other).ok_or(Unread::Form)?;
    Ok(Pick {
        back,
        target,
        other,
    })
}
