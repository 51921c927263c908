//! The line of a frame read.
ghost use Rattle.std.specs.Prelude.{◌≡◌, [], IfOk, MatchOption, None, Some};
ghost use Rattle.hex.specs.Hex.{decode_of};
ghost use Rattle.clnp_base.specs.Text.{decimal_of, words_of};
ghost use Rattle.frame_links.specs.PcapFrames.Making.{IsFrame};
ghost use Rattle.captures.specs.CaptureCommands.Make.{four_of, frame_of_words, pdu_of, seconds_in};
ghost use Rattle.captures.specs.CaptureCommands.ReadLine.{PduOf, ReadOf, frame_value, words_value};

use crate::capture_commands::stations::{read_destination, read_station};
use clnp_base::command_base::LineFault;
use clnp_base::command_base::base::{HexFault, decimal, next_word, push_unhex};
use clnp_base::command_base::code::{ADDRESS, COUNT, NUMBER, SYNTAX};
use frame_links::pcap_frames::nsaps::Snpa;

/// The most octets of a PDU in a frame.
const MOST_PDU: usize = 1497;

/// What a frame has beside its PDU.
#[derive(Clone, Copy)]
pub(crate) struct Envelope {
    /// The second at which it came.
    pub(crate) seconds: u32,
    /// Its destination, of six octets.
    pub(crate) to: Snpa,
    /// Its source, of six octets.
    pub(crate) from: Snpa,
}

/// The words of the line of a frame.
#[derive(Clone, Copy)]
struct LineWords<'a> {
    seconds: &'a [u8],
    to: &'a [u8],
    from: &'a [u8],
    pdu: &'a [u8],
}

/// Reads the line of a frame, `SECONDS DST SRC HEX`: appends the octets of its PDU to `pdu`, which is empty, and gives
/// the rest.
///
/// # Errors
///
/// The code of the first word that is wrong, or `NoMemory`: `SYNTAX` for another number of words, `NUMBER` for seconds
/// that are no decimal below 2^32, `ADDRESS` for a destination or a source that is none, and for digits that aren't two
/// an octet, `COUNT` for more than 1,497 octets.
pub(crate) fn read_frame(line: &[u8], pdu: &mut Vec<u8>) -> Result<Envelope, LineFault>
    requires { pdu.old.items ≡ [] }
    ensures read { ReadOf (frame_of_words (four_of (words_of line.now))) pdu.new.items result }
    ensures frame { IfOk result (λ envelope. IsFrame (frame_value envelope pdu.new.items)) }
{
    let Some(words) = four_words(line) else {
        return Err(LineFault::Bad { code: SYNTAX });
    };
    let Some(seconds) = read_seconds(words.seconds) else {
        return Err(LineFault::Bad { code: NUMBER });
    };
    let Some(to) = read_destination(words.to) else {
        return Err(LineFault::Bad { code: ADDRESS });
    };
    let Some(from) = read_station(words.from) else {
        return Err(LineFault::Bad { code: ADDRESS });
    };
    match read_pdu(words.pdu, pdu) {
        Ok(()) => Ok(Envelope { seconds, to, from }),
        Err(fault) => Err(fault),
    }
}

/// The four words of a line, if it has so many.
fn four_words(line: &[u8]) -> Option<LineWords<'_>>
    ensures words { MatchOption result (four_of (words_of line.now) ≡ None)
        (λ words. four_of (words_of line.now) ≡ Some (words_value words)) }
{
    let (seconds, left) = next_word(line)?;
    let (to, left) = next_word(left)?;
    let (from, left) = next_word(left)?;
    let (pdu, left) = next_word(left)?;
    if next_word(left).is_some() {
        return None;
    }
    Some(LineWords {
        seconds,
        to,
        from,
        pdu,
    })
}

/// The seconds that a word spells, in decimal digits, below 2^32.
fn read_seconds(word: &[u8]) -> Option<u32>
    ensures { result ≡ seconds_in (decimal_of word.now) }
{
    let seconds = decimal(word)?;
    u32::try_from(seconds).ok()
}

/// Appends the octets of a PDU to `pdu`, which is empty.
fn read_pdu(digits: &[u8], pdu: &mut Vec<u8>) -> Result<(), LineFault>
    requires { pdu.old.items ≡ [] }
    ensures { PduOf (pdu_of (decode_of digits.now)) pdu.new.items result }
{
    match push_unhex(digits, pdu) {
        Ok(()) => {}
        Err(HexFault::NoMemory) => return Err(LineFault::NoMemory),
        Err(_) => return Err(LineFault::Bad { code: ADDRESS }),
    }
    if pdu.len() > MOST_PDU {
        return Err(LineFault::Bad { code: COUNT });
    }
    Ok(())
}
