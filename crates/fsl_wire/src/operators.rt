//! Reads a line by its operator and its arguments, with a function for each operator.
ghost use Rattle.std.specs.Prelude.{◌≡◌};
ghost use Rattle.fsl_name.specs.Name.{name_in};
ghost use Rattle.fsl_wire.specs.Lines as line;
ghost use Rattle.fsl_wire.specs.Lines.{number_in, flag_in};
ghost use Rattle.fsl_wire.specs.declared.WireCard.TheVariants as card;
ghost use Rattle.fsl_wire.specs.Meanings.{line_of, arguments, item_line};

use super::arguments::Arguments;
use super::meaning::{Meaning, Wrong};
use super::tokens::is_word;
use fsl_name::Name;
use fsl_text::decimal;

/// Reads a token as a decimal number of 64 bits.
fn number_in(token: &[u8]) -> Option<u64>
    ensures { result ≡ number_in token.now }
{
    match decimal(token) {
        Ok(number) => Some(number),
        Err(_) => None,
    }
}

/// Reads a token as a name of 40 digits.
fn name_in(token: &[u8]) -> Option<Name>
    ensures { result ≡ name_in token.now }
{
    match Name::read(token) {
        Ok(name) => Some(name),
        Err(_) => None,
    }
}

/// Reads the flag of an igot card, which says whether the artifact is private.
fn flag_in(token: &[u8]) -> Option<bool>
    ensures { result ≡ flag_in token.now }
{
    if is_word(token, b"0") {
        Some(false)
    } else if is_word(token, b"1") {
        Some(true)
    } else {
        None
    }
}

/// Reads `login USER NONCE SIGNATURE`.
fn login_line(args: Arguments<'_>) -> Meaning<'_>
    ensures { line_of result ≡ line.login_line (arguments args.entry) }
{
    match args {
        Arguments::Three(user, nonce, signature) => Meaning::Login {
            user,
            nonce,
            signature,
        },
        _ => Meaning::Bad(Wrong::Args),
    }
}

/// Reads `push SERVER PROJECT`: any two tokens.
fn push_line(args: Arguments<'_>) -> Meaning<'_>
    ensures { line_of result ≡ line.codes_line card.Push (arguments args.entry) }
{
    match args {
        Arguments::Two(server, project) => Meaning::Push { server, project },
        _ => Meaning::Bad(Wrong::Args),
    }
}

/// Reads `pull SERVER PROJECT`: any two tokens.
fn pull_line(args: Arguments<'_>) -> Meaning<'_>
    ensures { line_of result ≡ line.codes_line card.Pull (arguments args.entry) }
{
    match args {
        Arguments::Two(server, project) => Meaning::Pull { server, project },
        _ => Meaning::Bad(Wrong::Args),
    }
}

/// Reads `clone`, or `clone VERSION SEQUENCE`.
fn clone_line(args: Arguments<'_>) -> Meaning<'_>
    ensures { line_of result ≡ line.clone_line (arguments args.entry) }
{
    match args {
        Arguments::None => Meaning::Clone { from: None },
        Arguments::Two(version, sequence) => match (number_in(version), number_in(sequence)) {
            (Some(version), Some(sequence)) => Meaning::Clone {
                from: Some((version, sequence)),
            },
            _ => Meaning::Bad(Wrong::Args),
        },
        _ => Meaning::Bad(Wrong::Args),
    }
}

/// Reads `clone_seqno NUMBER`.
fn seqno_line(args: Arguments<'_>) -> Meaning<'_>
    ensures { line_of result ≡ line.seqno_line (arguments args.entry) }
{
    match args {
        Arguments::One(next) => match number_in(next) {
            Some(next) => Meaning::CloneSeqno { next },
            None => Meaning::Bad(Wrong::Args),
        },
        _ => Meaning::Bad(Wrong::Args),
    }
}

/// Reads the line of a file by its two arguments.
fn sized_line(name: Name, size: &[u8]) -> Meaning<'_>
    ensures { line_of result ≡ line.sized_line name (number_in size.now) }
{
    match number_in(size) {
        Some(size) => Meaning::File { name, size },
        None => Meaning::Bad(Wrong::Size),
    }
}

/// Reads `file NAME SIZE`. Of three arguments it looks only at the first.
fn file_line(args: Arguments<'_>) -> Meaning<'_>
    ensures { line_of result ≡ line.file_line (arguments args.entry) }
{
    match args {
        Arguments::Two(name, size) => match name_in(name) {
            Some(name) => sized_line(name, size),
            None => Meaning::Bad(Wrong::Args),
        },
        Arguments::Three(name, _, _) => match name_in(name) {
            Some(_) => Meaning::Bad(Wrong::Delta),
            None => Meaning::Bad(Wrong::Args),
        },
        _ => Meaning::Bad(Wrong::Args),
    }
}

/// Reads `private`.
fn private_line(args: Arguments<'_>) -> Meaning<'_>
    ensures { line_of result ≡ line.private_line (arguments args.entry) }
{
    match args {
        Arguments::None => Meaning::Private,
        _ => Meaning::Bad(Wrong::Args),
    }
}

/// Reads `igot NAME`, `igot NAME 0` or `igot NAME 1`.
fn igot_line(args: Arguments<'_>) -> Meaning<'_>
    ensures { line_of result ≡ line.igot_line (arguments args.entry) }
{
    match args {
        Arguments::One(name) => match name_in(name) {
            Some(name) => Meaning::Igot {
                name,
                private: false,
            },
            None => Meaning::Bad(Wrong::Args),
        },
        Arguments::Two(name, flag) => match (name_in(name), flag_in(flag)) {
            (Some(name), Some(private)) => Meaning::Igot { name, private },
            _ => Meaning::Bad(Wrong::Args),
        },
        _ => Meaning::Bad(Wrong::Args),
    }
}

/// Reads `gimme NAME`.
fn gimme_line(args: Arguments<'_>) -> Meaning<'_>
    ensures { line_of result ≡ line.gimme_line (arguments args.entry) }
{
    match args {
        Arguments::One(name) => match name_in(name) {
            Some(name) => Meaning::Gimme { name },
            None => Meaning::Bad(Wrong::Args),
        },
        _ => Meaning::Bad(Wrong::Args),
    }
}

/// Reads `error TEXT`.
fn error_line(args: Arguments<'_>) -> Meaning<'_>
    ensures { line_of result ≡ line.text_line card.Error (arguments args.entry) }
{
    match args {
        Arguments::One(text) => Meaning::Error { text },
        _ => Meaning::Bad(Wrong::Args),
    }
}

/// Reads `message TEXT`.
fn message_line(args: Arguments<'_>) -> Meaning<'_>
    ensures { line_of result ≡ line.text_line card.Message (arguments args.entry) }
{
    match args {
        Arguments::One(text) => Meaning::Message { text },
        _ => Meaning::Bad(Wrong::Args),
    }
}

/// Reads `pragma` with any tokens. Only `send-private` has a meaning.
fn pragma_line(args: Arguments<'_>) -> Meaning<'_>
    ensures { line_of result ≡ line.pragma_line (arguments args.entry) }
{
    match args {
        Arguments::One(word) => {
            if is_word(word, b"send-private") {
                Meaning::SendPrivate
            } else {
                Meaning::Blank
            }
        }
        _ => Meaning::Blank,
    }
}

/// Reads the line of one of the operators of names, files and texts, or of none.
fn item_line<'a>(operator: &[u8], args: Arguments<'a>) -> Meaning<'a>
    ensures { line_of result ≡ item_line operator.now (arguments args.entry) }
{
    if is_word(operator, b"file") {
        file_line(args)
    } else if is_word(operator, b"private") {
        private_line(args)
    } else if is_word(operator, b"igot") {
        igot_line(args)
    } else if is_word(operator, b"gimme") {
        gimme_line(args)
    } else if is_word(operator, b"error") {
        error_line(args)
    } else if is_word(operator, b"message") {
        message_line(args)
    } else if is_word(operator, b"cookie") {
        Meaning::Blank
    } else if is_word(operator, b"pragma") {
        pragma_line(args)
    } else {
        Meaning::Bad(Wrong::Unknown)
    }
}

/// Reads the line of an operator.
pub fn operator_line<'a>(operator: &[u8], args: Arguments<'a>) -> Meaning<'a>
    ensures { line_of result ≡ line.operator_line operator.now (arguments args.entry) }
{
    if is_word(operator, b"login") {
        login_line(args)
    } else if is_word(operator, b"push") {
        push_line(args)
    } else if is_word(operator, b"pull") {
        pull_line(args)
    } else if is_word(operator, b"clone") {
        clone_line(args)
    } else if is_word(operator, b"clone_seqno") {
        seqno_line(args)
    } else {
        item_line(operator, args)
    }
}
