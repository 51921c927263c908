//! The words and fields of a shown line.

ghost use Rattle.std.specs.Prelude.{◌≡◌, ◌++◌, OnErr, OnOk};
ghost use Rattle.pdus.specs.Nsap.Text.{hex_text};
ghost use Rattle.captures.specs.Kept.{Keeps};
ghost use Rattle.captures.specs.Shown.{flags_word, letters_of, report_word};
ghost use Rattle.captures.specs.Words.{pair_word, option_text, options_text};
ghost use Rattle.pdus.specs.ClnpOptions.Parameter.{parameters};

use pdus::esis_pdus::base::{NoMemory, push, push_hex};
use pdus::esis_pdus::first_option;

/// Appends a label, and octets as hexadecimal digits in lower case.
pub(crate) fn push_octets(label: &[u8], octets: &[u8], line: &mut Vec<u8>) -> Result<(), NoMemory>
    ensures written { OnOk result (line.new.items ≡ line.old.items ++ (label.now ++ hex_text octets.now)) }
    ensures kept { OnErr result (Keeps line.old.items line.new.items) }
{
    push(label, line)?;
    push_hex(octets, line)
}

/// Appends a label, and a number of two octets in four hexadecimal digits.
pub(crate) fn push_pair(label: &[u8], number: u16, line: &mut Vec<u8>) -> Result<(), NoMemory>
    ensures written { OnOk result (line.new.items ≡ line.old.items ++ (label.now ++ pair_word number)) }
    ensures kept { OnErr result (Keeps line.old.items line.new.items) }
{
    push_octets(label, &number.to_be_bytes(), line)
}

/// The word of whether an error report is made.
pub(crate) fn report_text(reportable: bool) -> &'static [u8]
    ensures { result.now ≡ report_word reportable }
{
    if reportable { b"report" } else { b"silent" }
}

/// The letters of the flags that are 1: s where segmentation is permitted, m where more segments
/// follow, e where an error report is wanted; `-` where none is.
pub(crate) fn flags_text(segmented: bool, more: bool, report: bool) -> &'static [u8]
    ensures { result.now ≡ flags_word (letters_of segmented more report) }
{
    match (segmented, more, report) {
        (false, false, false) => b"-",
        (false, false, true) => b"e",
        (false, true, false) => b"m",
        (false, true, true) => b"me",
        (true, false, false) => b"s",
        (true, false, true) => b"se",
        (true, true, false) => b"sm",
        (true, true, true) => b"sme",
    }
}

/// Appends the options that stand in a part of a header, in order.
#[tactic(auto, unfolding(crate::specs::Words::options_text))]
pub(crate) fn push_options(part: &[u8], line: &mut Vec<u8>) -> Result<(), NoMemory>
    ensures written { OnOk result (line.new.items ≡ line.old.items ++ options_text (parameters part.now)) }
    ensures kept { OnErr result (Keeps line.old.items line.new.items) }
{
    let mut left = part;
    while let Some((code, value, others)) = first_option(left) {
        push_option(code, value, line)?;
        left = others;
    }
    Ok(())
}

/// Appends an option: its code and its value.
fn push_option(code: u8, value: &[u8], line: &mut Vec<u8>) -> Result<(), NoMemory>
    ensures written { OnOk result (line.new.items ≡ line.old.items ++ option_text (record { code = code; value = value.now })) }
    ensures kept { OnErr result (Keeps line.old.items line.new.items) }
{
    push_octets(b" opt=", &[code], line)?;
    push_octets(b":", value, line)
}
