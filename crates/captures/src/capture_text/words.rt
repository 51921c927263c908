//! Words of a shown line.
ghost use Rattle.std.specs.Prelude.{◌≡◌, ◌==◌, ◌≤◌, IfSome, MatchOption, drop, length, true, false};
ghost use Rattle.std.specs.List.{list_any};
ghost use Rattle.captures.specs.CaptureText.Laid as laid;
ghost use Rattle.captures.specs.CaptureText.Laid.{octet_5};
ghost use Rattle.captures.specs.CaptureText.Packing.{has_prefix, is_unpackable};

use crate::base::same;
use crate::clnp::Kind;

/// Whether a text begins so.
pub(crate) fn has_prefix(prefix: &[u8], text: &[u8]) -> bool
    ensures { result ≡ has_prefix prefix.now text.now }
{
    text.starts_with(prefix)
}

/// What follows a key in a word that begins with it.
pub(crate) fn behind<'a>(key: &[u8], word: &'a [u8]) -> Option<&'a [u8]>
    ensures { MatchOption result (has_prefix key.now word.now ≡ false)
        (λ value. (has_prefix key.now word.now ≡ true) × (value.now ≡ drop (length key.now) word.now)) }
{
    word.strip_prefix(key)
}

/// The type of the kind of PDU that a word names (ISO 8473, section 7.2.7; RFC 1575, section 4).
pub(crate) fn type_of(word: &[u8]) -> Option<u8>
    ensures kind { result ≡ laid.type_of word.now }
    ensures small { IfSome result (λ code. code ≤ 31) }
{
    if same(word, b"dt") {
        return Some(Kind::Dt.type_code());
    }
    if same(word, b"er") {
        return Some(Kind::Er.type_code());
    }
    if same(word, b"erq") {
        return Some(Kind::Erq.type_code());
    }
    if same(word, b"erp") {
        return Some(Kind::Erp.type_code());
    }
    None
}

/// Whether a letter stands among others.
fn has_letter(letter: u8, letters: &[u8]) -> bool
    ensures { result ≡ list_any (λ c. c == letter) letters.now }
{
    letters.iter().any(|c| *c == letter)
}

/// What a flag is worth, where its letter is shown.
fn flag(letter: u8, worth: u8, letters: &[u8]) -> u8
    ensures value { result ≡ laid.flag letter worth letters.now }
    ensures small { result ≤ worth }
{
    if has_letter(letter, letters) {
        worth
    } else {
        0
    }
}

/// Octet 5 of a header: the flags segmentation permitted, more segments and error report, and the type (ISO 8473,
/// sections 7.2.6 and 7.2.7).
pub(crate) fn octet_5(letters: &[u8], code: u8) -> u8
    requires { code ≤ 31 }
    ensures { result ≡ octet_5 letters.now code }
{
    flag(b's', 128, letters) + flag(b'm', 64, letters) + flag(b'e', 32, letters) + code
}

/// Whether a line is that of a refused frame, or of one of neither protocol.
pub(crate) fn is_unpackable(line: &[u8]) -> bool
    ensures { result ≡ is_unpackable line.now }
{
    same(line, b"alien") || has_prefix(b"refused ", line)
}
