//! Hexadecimal digits read, where what each is worth is known.
ghost use Rattle.std.specs.Prelude.{◌≡◌, ◌%◌, ◌↔◌, length, OnOk, OnErr};
ghost use Rattle.hex.specs.Hex.{decode_of};
ghost use Rattle.pdus.specs.ClnpBase.Hexadecimal.{AppendsSpelled, IsDigitRefusal};

use pdus::esis_pdus::base::{DigitValues, HexFault};

/// Appends the octets that hexadecimal digits in either case spell, two digits an octet. It does what `push_unhex`
/// does, for texts of many words: what digits are worth isn't asked anew for each.
///
/// # Errors
///
/// `OddLength` exactly where the characters are odd in number; else `BadDigit`, only where one of them is no digit, and
/// always there unless memory is refused; else `NoMemory`. `out` is then as it was.
pub fn push_spelled(values: &DigitValues, digits: &[u8], out: &mut Vec<u8>) -> Result<(), HexFault>
    ensures written { OnOk result (AppendsSpelled digits.now out.old.items out.new.items) }
    ensures odd { result ≡ Err HexFault.OddLength ↔ (length digits.now % 2 ≡ 1) }
    ensures bad { result ≡ Err HexFault.BadDigit → IsDigitRefusal (decode_of digits.now) }
    ensures same { OnErr result (out.new.items ≡ out.old.items) }
{
    if digits.len() % 2 != 0 {
        return Err(HexFault::OddLength);
    }
    let start = out.len();
    let Ok(()) = out.resize(start + digits.len() / 2, 0) else {
        return Err(HexFault::NoMemory);
    };
    if values.decode(digits, &mut out[start..]) {
        return Ok(());
    }
    out.truncate(start);
    Err(HexFault::BadDigit)
}
