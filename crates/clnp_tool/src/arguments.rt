//! The words of the command line.
use clnp_program::base::NoMemory;
use std::env::FillError;
use std::rt::Env;

/// How many octets a word may have at the first attempt to read it.
const FIRST_ROOM: usize = 256;

/// The words of the command line, without the program's name.
///
/// # Errors
///
/// `NoMemory`.
pub fn words<R: Env + AllocGlobal>(rt: &R) -> Result<Vec<String>, NoMemory> {
    let mut words = Vec::new(rt.alloc());
    for place in 1..usize::MAX {
        let Some(word) = word_at(rt, place)? else {
            break;
        };
        if words.push(word).is_err() {
            return Err(NoMemory);
        }
    }
    Ok(words)
}

/// The word at a place, where 0 is the program's name, or `None` behind the last one.
///
/// In a word that isn't UTF-8 each octet that is at fault becomes U+FFFD, so it is no command.
fn word_at<R: Env + AllocGlobal>(rt: &R, place: usize) -> Result<Option<String>, NoMemory> {
    let mut room = FIRST_ROOM;
    for _ in 0..usize::BITS {
        let mut octets = vec![in rt.alloc(); 0u8; room]?;
        match rt.arg(place, octets.as_mut_slice()) {
            Ok(length) => {
                octets.truncate(length);
                let word = String::from_utf8_lossy(rt.alloc(), octets.as_slice())?;
                return Ok(Some(word));
            }
            Err(FillError::NotPresent) => return Ok(None),
            Err(FillError::TooLong) => room = room.saturating_mul(2),
        }
    }
    Err(NoMemory)
}
