//! The files of the host in memory, and the names that were asked for.
ghost use Rattle.std.specs.Prelude.{◌≡◌, ◌++◌, ◌∷◌, [], Some, None, MatchOption, MatchResult, OnOk, OnErr, IfOk, IsTrue, option_copied};
ghost use Rattle.std.specs.Option.{option_map};
ghost use Rattle.host_io.specs.World.{with_file};
ghost use Rattle.host_io.specs.Memory.{contents_of, first_place};
ghost use Rattle.host_io.specs.States.{file_states, asked_of, all_asked};

use std::alloc::{AllocError, Global};

/// A name that was asked for, and by which call.
#[derive(Drop)]
pub enum AskedName {
    Opened(String),
    Created(String),
}

/// Adds a name to those that were asked for.
pub fn ask(asked: &mut Vec<AskedName>, name: AskedName) -> Result<(), AllocError>
    ensures ok { OnOk result (all_asked asked.new.items ≡ all_asked asked.old.items ++ asked_of name ∷ []) }
    ensures err { OnErr result (asked.new.items ≡ asked.old.items) }
{
    asked.push(name)?;
    Ok(())
}

/// Where the first file of this name stands.
pub fn place_of(files: &[(String, Vec<u8>)], name: &str) -> Option<usize>
    ensures { result ≡ first_place (file_states files.now) name.now }
{
    for (i, file) in files.iter().enumerate() {
        if name == file.0.as_str() {
            return Some(i);
        }
    }
    None
}

/// The bytes behind a name.
pub fn bytes_of<'a>(files: &'a [(String, Vec<u8>)], name: &str) -> Option<&'a [u8]>
    ensures { MatchOption result (contents_of (file_states files.now) name.now ≡ None)
        (λ bytes. contents_of (file_states files.now) name.now ≡ Some bytes.now) }
{
    for file in files {
        if name == file.0.as_str() {
            return Some(file.1.as_slice());
        }
    }
    None
}

/// A copy of the bytes behind a name.
pub fn copy_of(
    alloc: Global,
    files: &[(String, Vec<u8>)],
    name: &str,
) -> Result<Option<Vec<u8>>, AllocError>
    ensures { IfOk result (λ found. MatchOption found (contents_of (file_states files.now) name.now ≡ None)
        (λ bytes. contents_of (file_states files.now) name.now ≡ Some bytes.items)) }
{
    match bytes_of(files, name) {
        Some(bytes) => Ok(Some(Vec::from_slice(alloc, bytes)?)),
        None => Ok(None),
    }
}

/// An empty file behind this name.
pub fn empty_file(
    alloc: Global,
    files: &mut Vec<(String, Vec<u8>)>,
    name: &str,
) -> Result<(), AllocError>
    ensures ok { OnOk result (contents_of (file_states files.new.items) ≡ with_file (contents_of (file_states files.old.items)) name.now (λ old. Some [])) }
    ensures err { OnErr result (files.new.items ≡ files.old.items) }
{
    match place_of(files, name) {
        Some(place) => {
            let file = &mut files[place];
            file.1.clear();
        }
        None => files.push((String::from_str(alloc, name)?, Vec::new(alloc)))?,
    }
    Ok(())
}
