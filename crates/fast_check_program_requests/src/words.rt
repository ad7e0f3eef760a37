//! The words behind the program's name, and the file that they name.

ghost use Rattle.std.specs.Prelude.{◌≡◌, IfErr};
ghost use Rattle.fast_check_program_requests.specs.Opened.{unless_out_of_memory};

use crate::command::Command;
use crate::refusal::Refusal;
use std::alloc::AllocError;
use std::env::{Env, FillError};
use std::fs::{File, Files};
use std::io::ErrorKind;
use std::{io, str};

/// How many words are read: those of a call, and one that is too many.
const WORDS: usize = 3;

/// The most bytes of a word: no file opens by a longer name.
const LONGEST: usize = 4096;

/// What the program is called with: the words behind its name, and the file that they name, which is none where it does not open,
/// or its name is not text, or the first word names no command: then nothing is opened.
pub fn read_call<C: Command, R: Env + Files + AllocGlobal>(
    rt: &R,
) -> Result<(Vec<String>, Option<R::File>), Refusal>
    ensures { IfErr result (λ refusal. refusal ≡ Refusal.OutOfMemory) }
{
    let words = read_words(rt)?;
    let file = match words.as_slice() {
        [name, path] if C::of_name(name.as_str()).is_some() => {
            unless_out_of_memory(File::open(rt, path.as_str()))?
        }
        _ => None,
    };
    Ok((words, file))
}

/// The words behind the program's name, which is not read: it may be no text.
fn read_words<R: Env + AllocGlobal>(rt: &R) -> Result<Vec<String>, AllocError> {
    let mut words = Vec::new(rt.alloc());
    for place in 1..=WORDS {
        match read_word(rt, place)? {
            Some(word) => words.push(word)?,
            None => break,
        }
    }
    Ok(words)
}

/// The word at a place, if there is one. What is not text, or too long, is empty: so it names no command, and no file opens by it.
fn read_word<R: Env + AllocGlobal>(rt: &R, place: usize) -> Result<Option<String>, AllocError> {
    let mut bytes = [0u8; LONGEST];
    let word = match rt.arg(place, &mut bytes) {
        Ok(length) => text_of(&bytes, length),
        Err(FillError::TooLong) => "",
        Err(FillError::NotPresent) => return Ok(None),
    };
    Ok(Some(String::from_str(rt.alloc(), word)?))
}

/// The text that the first bytes are, or none.
fn text_of(bytes: &[u8], length: usize) -> &str {
    let Some(word) = bytes.get(..length) else {
        return "";
    };
    str::from_utf8(word).unwrap_or("")
}

/// What was asked of the system, or none where it failed. Want of memory is passed on.
fn unless_out_of_memory<T: Drop>(asked: io::Result<T>) -> Result<Option<T>, Refusal>
    ensures got { result ≡ unless_out_of_memory asked }
    ensures refusal { IfErr result (λ refusal. refusal ≡ Refusal.OutOfMemory) }
{
    match asked {
        Ok(got) => Ok(Some(got)),
        Err(error) => match error.kind() {
            ErrorKind::OutOfMemory => Err(Refusal::OutOfMemory),
            _ => Ok(None),
        },
    }
}
