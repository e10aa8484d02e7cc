//! The words of the command line.
use crate::unstarted::Unstarted;
use std::alloc::AllocError;
use std::env;
use std::env::Env;
use std::io::ErrorKind;
use std::str::from_utf8;

/// How many bytes the longest word of a command line has, with its end.
const LONGEST: usize = 131_072;

/// The first word that isn't UTF-8, with U+FFFD in place of what isn't; an empty one without such a
/// word.
fn odd_word(rt: &HostRuntime) -> Result<String, AllocError> {
    let mut room = Vec::new(rt.alloc());
    room.resize(LONGEST, 0)?;
    for index in 0..usize::MAX {
        let Ok(length) = rt.arg(index, room.as_mut_slice()) else {
            break;
        };
        let word = &room[..length];
        if from_utf8(word).is_err() {
            return String::from_utf8_lossy(rt.alloc(), word);
        }
    }
    Ok(String::new(rt.alloc()))
}

/// That a word isn't UTF-8, in the form in which other command lines are refused.
fn refusal(rt: &HostRuntime) -> Result<String, AllocError> {
    let word = odd_word(rt)?;
    format!(in rt.alloc();
        "error: the word '{word}' isn't UTF-8\n\nFor more information, try '--help'.\n"
    )
}

/// The words of the command line, of which the first is the program's name.
pub fn words(rt: &HostRuntime) -> Result<Vec<String>, Unstarted> {
    match env::args(rt) {
        Ok(words) => Ok(words.collect(rt.alloc())?),
        Err(error) if error.kind() == ErrorKind::InvalidData => {
            Err(Unstarted::Refused(refusal(rt)?))
        }
        Err(error) => Err(Unstarted::Failed(error)),
    }
}
