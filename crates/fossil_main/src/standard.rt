//! Holds the numbers of the standard streams.
use std::fs::File;

/// The files at the numbers of the standard streams that were closed.
#[derive(Drop)]
pub struct Standard {
    files: [Option<File>; 3],
}

/// Takes the numbers of standard input, output and error where these were closed when the program began, for as long as
/// the result lives. The system gives a file that is opened the lowest free number, so what is printed would else be
/// written into a repository. A read or a write at these numbers fails, as with a stream that is closed.
pub fn hold(rt: &HostRuntime) -> Standard {
    Standard {
        files: [of_nothing(rt), of_nothing(rt), of_nothing(rt)],
    }
}

/// A folder, of which no byte is read and into which none is written, or else the null device for reading. None where neither opens.
fn of_nothing(rt: &HostRuntime) -> Option<File> {
    match File::open(rt, "/") {
        Ok(file) => Some(file),
        Err(_) => File::open(rt, "/dev/null").ok(),
    }
}
