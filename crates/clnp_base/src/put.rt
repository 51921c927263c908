//! Text put behind other text: pieces, hexadecimal digits and decimal numbers; and hexadecimal digits read.
ghost use Rattle.std.specs.Prelude.{◌≡◌, ◌%◌, ◌++◌, ◌↔◌, length, take, replicate, OnOk, OnErr};
ghost use Rattle.std.specs.Fmt.{decimal};
ghost use Rattle.hex.specs.Hex.{decode_of, encode_lower};
ghost use Rattle.clnp_base.specs.Hexadecimal.{AppendsSpelled, IsDigitRefusal};

use crate::digits::decode;
use crate::octets::NoMemory;
use itoa::Buffer;

/// Appends a piece.
///
/// # Errors
///
/// `NoMemory`; `out` is then as it was.
pub fn push(piece: &[u8], out: &mut Vec<u8>) -> Result<(), NoMemory>
    ensures written { OnOk result (out.new.items ≡ out.old.items ++ piece.now) }
    ensures same { OnErr result (out.new.items ≡ out.old.items) }
{
    out.extend_from_slice(piece).map_err(|_| NoMemory)
}

/// Appends octets as hexadecimal digits in lower case, two an octet.
///
/// # Errors
///
/// `NoMemory`; `out` is then as it was.
pub fn push_hex(octets: &[u8], out: &mut Vec<u8>) -> Result<(), NoMemory>
    ensures written { OnOk result (out.new.items ≡ out.old.items ++ encode_lower octets.now) }
    ensures same { OnErr result (out.new.items ≡ out.old.items) }
{
    let start = out.len();
    make_room(2 * octets.len(), out)?;
    match hex::encode_to_slice(octets, &mut out[start..]) {
        Ok(()) => Ok(()),
        Err(_) => unreachable!(),
    }
}

/// Appends a number in decimal digits.
///
/// # Errors
///
/// `NoMemory`; `out` is then as it was.
pub fn push_decimal(number: u64, out: &mut Vec<u8>) -> Result<(), NoMemory>
    ensures written { OnOk result (out.new.items ≡ out.old.items ++ decimal number) }
    ensures same { OnErr result (out.new.items ≡ out.old.items) }
{
    let mut buffer = Buffer::new();
    push(buffer.format(number).as_bytes(), out)
}

/// Appends a label, and a number in decimal digits.
///
/// # Errors
///
/// `NoMemory`; some of it may stand behind what was in `out` then.
pub fn push_number(label: &[u8], number: u64, out: &mut Vec<u8>) -> Result<(), NoMemory>
    ensures written { OnOk result (out.new.items ≡ out.old.items ++ (label.now ++ decimal number)) }
    ensures kept { OnErr result (take (length out.old.items) out.new.items ≡ out.old.items) }
{
    push(label, out)?;
    push_decimal(number, out)
}

/// Why no octets were read of hexadecimal digits.
#[derive(Clone, Copy, PartialEq, Eq)]
pub enum HexFault {
    /// The characters are odd in number.
    OddLength,
    /// They are even in number, and one of them is no hexadecimal digit.
    BadDigit,
    /// Memory was refused.
    NoMemory,
}

impl From<NoMemory> for HexFault {
    ghost use Rattle.std.specs.Prelude.{◌≡◌};
    ghost use Rattle.clnp_base.specs.declared.put.HexFault.TheVariants.{NoMemory as memory_refused};

    ghost from_gives = { λ _ fault. fault ≡ memory_refused };

    fn from(_refused: NoMemory) -> HexFault {
        HexFault::NoMemory
    }
}

/// Appends the octets that hexadecimal digits in either case spell, two digits an octet.
///
/// # Errors
///
/// `OddLength` exactly where the characters are odd in number; else `BadDigit`, only where one of them is no
/// digit, and always there unless memory is refused; else `NoMemory`. `out` is then as it was.
pub fn push_unhex(digits: &[u8], out: &mut Vec<u8>) -> Result<(), HexFault>
    ensures written { OnOk result (AppendsSpelled digits.now out.old.items out.new.items) }
    ensures odd { result ≡ Err HexFault.OddLength ↔ (length digits.now % 2 ≡ 1) }
    ensures bad { result ≡ Err HexFault.BadDigit → IsDigitRefusal (decode_of digits.now) }
    ensures same { OnErr result (out.new.items ≡ out.old.items) }
{
    if digits.len() % 2 != 0 {
        return Err(HexFault::OddLength);
    }
    let start = out.len();
    make_room(digits.len() / 2, out)?;
    if decode(digits, &mut out[start..]) {
        return Ok(());
    }
    out.truncate(start);
    Err(HexFault::BadDigit)
}

/// Appends zeros.
fn make_room(count: usize, out: &mut Vec<u8>) -> Result<(), NoMemory>
    ensures written { OnOk result (out.new.items ≡ out.old.items ++ replicate count 0) }
    ensures same { OnErr result (out.new.items ≡ out.old.items) }
{
    out.reserve(count)?;
    out.resize(out.len() + count, 0)?;
    Ok(())
}
