//! Checks paths of files.
ghost use Rattle.std.specs.Prelude.{◌≡◌};
ghost use Rattle.fsl_text.specs.Paths.{is_path_part, path_ok};

/// Returns whether a part of a path is a name.
fn is_path_part(part: &[u8]) -> bool
    ensures { result ≡ is_path_part part.now }
{
    !part.is_empty() && part != b".".as_slice() && part != b"..".as_slice()
}

/// Returns whether bytes are the path of a file in a check-in: parts with one slash between them, none of which is empty, `.` or
/// `..`. So no path begins or ends with a slash, and the empty one is none.
/// FORMATS: Texts
pub fn path_ok(path: &[u8]) -> bool
    ensures { result ≡ path_ok path.now }
{
    path.split(|byte| *byte == b'/').all(is_path_part)
}
