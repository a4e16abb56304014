//! A row as its files give it.

use crate::trouble::Trouble;
use srx_edge::{FileFault, Files, MemFiles};
use std::alloc::Global;

/// A file of a row has at most so many bytes.
const MAX_FILE_BYTES: usize = 1 << 24;

/// A row: what `serve` is given, and what must come.
#[derive(Drop)]
pub(crate) struct Row {
    /// The words.
    pub(crate) words: Vec<String>,
    /// The files that the words name, as far as they are there.
    pub(crate) files: MemFiles,
    /// The input.
    pub(crate) input: Vec<u8>,
    /// What must be written on `out`.
    pub(crate) out: Vec<u8>,
    /// What must be written on `err`.
    pub(crate) err: Vec<u8>,
    /// The status that must come, as a text.
    pub(crate) status: Vec<u8>,
}

/// The bytes of a file that must be there.
pub(crate) fn file_of<F: Files>(
    alloc: Global,
    files: &mut F,
    path: &str,
    name: &'static str,
) -> Result<Vec<u8>, Trouble> {
    match files.read(alloc, path, MAX_FILE_BYTES) {
        Ok(bytes) => Ok(bytes),
        Err(FileFault::Failed) => Err(Trouble::Unread(name)),
        Err(FileFault::TooBig { .. }) => Err(Trouble::TooBig(name)),
        Err(FileFault::NoMemory) => Err(Trouble::NoMemory),
    }
}

/// The text that the bytes of a file are.
pub(crate) fn text_of<'a>(bytes: &'a [u8], name: &'static str) -> Result<&'a str, Trouble> {
    match std::str::from_utf8(bytes) {
        Ok(text) => Ok(text),
        Err(_) => Err(Trouble::NotText(name)),
    }
}

/// The bytes of a file of a row.
fn part<F: Files>(
    alloc: Global,
    files: &mut F,
    row: &str,
    name: &'static str,
) -> Result<Vec<u8>, Trouble> {
    let path = format!(in alloc; "{row}/{name}")?;
    file_of(alloc, files, path.as_str(), name)
}

/// The words that a text lists, one a line.
fn words_of(alloc: Global, text: &str) -> Result<Vec<String>, Trouble> {
    let mut words = Vec::new(alloc);
    for line in text.lines() {
        words.push(line.to_string(alloc)?)?;
    }
    Ok(words)
}

/// Holds the file that a word names, if the row has it and it isn't held yet.
fn hold<F: Files>(
    alloc: Global,
    files: &mut F,
    row: &str,
    word: &str,
    held: &mut MemFiles,
) -> Result<(), Trouble> {
    if held.holds(word) {
        return Ok(());
    }
    let path = format!(in alloc; "{row}/{word}")?;
    match files.read(alloc, path.as_str(), MAX_FILE_BYTES) {
        Ok(bytes) => {
            held.hold(word, bytes.as_slice())?;
            Ok(())
        }
        Err(FileFault::Failed) => Ok(()),
        Err(FileFault::TooBig { .. }) => Err(Trouble::TooBig("a file that a word names")),
        Err(FileFault::NoMemory) => Err(Trouble::NoMemory),
    }
}

/// The files that the words name, as far as the row has them.
fn files_of<F: Files>(
    alloc: Global,
    files: &mut F,
    row: &str,
    words: &[String],
) -> Result<MemFiles, Trouble> {
    let mut held = MemFiles::new(alloc, &[])?;
    for word in words {
        hold(alloc, files, row, word.as_str(), &mut held)?;
    }
    Ok(held)
}

/// The row of a name.
pub(crate) fn row_of<F: Files>(alloc: Global, files: &mut F, name: &str) -> Result<Row, Trouble> {
    let args = part(alloc, files, name, "args")?;
    let words = words_of(alloc, text_of(args.as_slice(), "args")?)?;
    let held = files_of(alloc, files, name, words.as_slice())?;
    Ok(Row {
        words,
        files: held,
        input: part(alloc, files, name, "stdin")?,
        out: part(alloc, files, name, "stdout")?,
        err: part(alloc, files, name, "stderr")?,
        status: part(alloc, files, name, "status")?,
    })
}
