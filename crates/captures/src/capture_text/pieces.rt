//! What the words of a shown line say of a frame.
ghost use Rattle.std.specs.Prelude.{◌≡◌, Some, MatchOption, MatchResult, codes, drop, if◌then◌else◌};
ghost use Rattle.pdus.specs.ClnpBase.Text.{words_of};
ghost use Rattle.captures.specs.CaptureText.Said.{Said, nothing, says_data, says_listed, says_number, says_part, says_rest, says_sum, with_counted};
ghost use Rattle.captures.specs.CaptureText.Packing.{has_prefix};
ghost use Rattle.captures.specs.CaptureText.Words.{says_address, says_field, says_word, says_words};
ghost use Rattle.captures.specs.CaptureText.View.{Misses, said_by};

use crate::base::{DigitValues, next_word};
use crate::capture_text::digits::{
    number_in, pair_in, push_counted_in, push_number_in, push_octets_in, push_option_in,
};
use crate::capture_text::refusal::PackRefusal;
use crate::capture_text::words::behind;
use std::alloc::Global;

/// The most addresses that one octet counts.
const MOST_ADDRESSES: u8 = 255;

/// What words say of a frame, in octets.
#[derive(Drop)]
pub(crate) struct Pieces {
    /// The lifetime in ticks of 500 ms, or the holding time in seconds.
    pub(crate) number: u16,
    /// The two octets of the checksum.
    pub(crate) sum: [u8; 2],
    /// How many addresses of an end system hello.
    pub(crate) addresses: u8,
    /// The header's octets behind its fixed part: addresses, segmentation part, options.
    pub(crate) part: Vec<u8>,
    /// How many octets of data.
    pub(crate) size: usize,
    /// The data, and what follows the PDU in its frame.
    pub(crate) behind: Vec<u8>,
}

/// What the words of a line say together.
pub(crate) fn pieces_of(
    alloc: Global,
    values: &DigitValues,
    line: &[u8],
) -> Result<Pieces, PackRefusal>
    ensures { let reading = says_words nothing (words_of line.now) in
        MatchResult result (λ pieces. reading ≡ Some (said_by pieces)) (λ refusal. Misses refusal reading) }
{
    let mut pieces = Pieces::new(alloc);
    let mut left = line;
    while let Some((word, others)) = next_word(left) {
        pieces.add(values, word)?;
        left = others;
    }
    Ok(pieces)
}

/// The digits of an address that isn't one of many.
#[tactic(auto, unfolding(crate::specs::CaptureText::Words::says_address))]
fn address_in(word: &[u8]) -> Option<&[u8]>
    ensures { MatchOption result
        ((said : Said) → says_address said word.now
        ≡ (if has_prefix (codes "addr=") word.now then says_listed said (drop 5 word.now) else says_field said word.now))
        (λ digits. (said : Said) → says_address said word.now ≡ says_part said (with_counted said.part digits.now)) }
{
    if let Some(digits) = behind(b"to=", word) {
        return Some(digits);
    }
    if let Some(digits) = behind(b"from=", word) {
        return Some(digits);
    }
    if let Some(digits) = behind(b"via=", word) {
        return Some(digits);
    }
    behind(b"title=", word)
}

impl Pieces {
    /// What no word says.
    fn new(alloc: Global) -> Pieces
        ensures { said_by result ≡ nothing }
    {
        Pieces {
            number: 0,
            sum: [0; 2],
            addresses: 0,
            part: Vec::new(alloc),
            size: 0,
            behind: Vec::new(alloc),
        }
    }

    /// Adds what a word says of the fixed part, or of what stands behind the header.
    #[tactic(auto, unfolding(crate::specs::CaptureText::Words::says_word))]
    fn add(&mut self, values: &DigitValues, word: &[u8]) -> Result<(), PackRefusal>
        ensures { let reading = says_word (said_by self.old) word.now in
            MatchResult result (λ _. reading ≡ Some (said_by self.new)) (λ refusal. Misses refusal reading) }
    {
        if let Some(digits) = behind(b"life=", word) {
            return self.add_number(digits);
        }
        if let Some(digits) = behind(b"hold=", word) {
            return self.add_number(digits);
        }
        if let Some(digits) = behind(b"sum=", word) {
            return self.add_sum(digits);
        }
        if let Some(digits) = behind(b"data=", word) {
            return self.add_data(values, digits);
        }
        if let Some(digits) = behind(b"rest=", word) {
            return self.add_rest(values, digits);
        }
        self.add_address(values, word)
    }

    /// Adds an address.
    fn add_address(&mut self, values: &DigitValues, word: &[u8]) -> Result<(), PackRefusal>
        ensures { let reading = says_address (said_by self.old) word.now in
            MatchResult result (λ _. reading ≡ Some (said_by self.new)) (λ refusal. Misses refusal reading) }
    {
        if let Some(digits) = address_in(word) {
            return push_counted_in(values, digits, &mut self.part);
        }
        if let Some(digits) = behind(b"addr=", word) {
            return self.add_listed(values, digits);
        }
        self.add_field(values, word)
    }

    /// Adds a field of the segmentation part, or an option.
    #[tactic(auto, unfolding(crate::specs::CaptureText::Words::says_field))]
    fn add_field(&mut self, values: &DigitValues, word: &[u8]) -> Result<(), PackRefusal>
        ensures { let reading = says_field (said_by self.old) word.now in
            MatchResult result (λ _. reading ≡ Some (said_by self.new)) (λ refusal. Misses refusal reading) }
    {
        if let Some(digits) = behind(b"id=", word) {
            return push_octets_in(values, digits, &mut self.part);
        }
        if let Some(digits) = behind(b"off=", word) {
            return push_number_in(digits, &mut self.part);
        }
        if let Some(digits) = behind(b"total=", word) {
            return push_number_in(digits, &mut self.part);
        }
        if let Some(text) = behind(b"opt=", word) {
            return push_option_in(values, text, &mut self.part);
        }
        Err(PackRefusal::NotShown)
    }

    /// Adds the lifetime or the holding time.
    fn add_number(&mut self, digits: &[u8]) -> Result<(), PackRefusal>
        ensures { let reading = says_number (said_by self.old) digits.now in
            MatchResult result (λ _. reading ≡ Some (said_by self.new)) (λ refusal. Misses refusal reading) }
    {
        let Some(number) = number_in(digits) else {
            return Err(PackRefusal::NotShown);
        };
        self.number = number;
        Ok(())
    }

    /// Adds the checksum.
    fn add_sum(&mut self, digits: &[u8]) -> Result<(), PackRefusal>
        ensures { let reading = says_sum (said_by self.old) digits.now in
            MatchResult result (λ _. reading ≡ Some (said_by self.new)) (λ refusal. Misses refusal reading) }
    {
        let Some(sum) = pair_in(digits) else {
            return Err(PackRefusal::NotShown);
        };
        self.sum = sum;
        Ok(())
    }

    /// Adds the data.
    fn add_data(&mut self, values: &DigitValues, digits: &[u8]) -> Result<(), PackRefusal>
        ensures { let reading = says_data (said_by self.old) digits.now in
            MatchResult result (λ _. reading ≡ Some (said_by self.new)) (λ refusal. Misses refusal reading) }
    {
        push_octets_in(values, digits, &mut self.behind)?;
        self.size = digits.len() / 2;
        Ok(())
    }

    /// Adds what follows the PDU in its frame.
    fn add_rest(&mut self, values: &DigitValues, digits: &[u8]) -> Result<(), PackRefusal>
        ensures { let reading = says_rest (said_by self.old) digits.now in
            MatchResult result (λ _. reading ≡ Some (said_by self.new)) (λ refusal. Misses refusal reading) }
    {
        push_octets_in(values, digits, &mut self.behind)
    }

    /// Adds an address of an end system hello.
    fn add_listed(&mut self, values: &DigitValues, digits: &[u8]) -> Result<(), PackRefusal>
        ensures { let reading = says_listed (said_by self.old) digits.now in
            MatchResult result (λ _. reading ≡ Some (said_by self.new)) (λ refusal. Misses refusal reading) }
    {
        if self.addresses == MOST_ADDRESSES {
            return Err(PackRefusal::NotShown);
        }
        push_counted_in(values, digits, &mut self.part)?;
        self.addresses += 1;
        Ok(())
    }
}
