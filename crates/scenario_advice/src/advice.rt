//! A line of advice, as it is put together.
ghost use Rattle.std.specs.Prelude.{◌≡◌, ◌≤◌, true, [], ◌∷◌, length};
ghost use Rattle.std.specs.List.{list_all};
ghost use Rattle.hex.specs.Hex.{encode_lower};
ghost use Rattle.scenario_advice.specs.Said.{IsSaid, IsTold, is_plain};

use itoa::Buffer;
use scenario::base::InlineOctets;
use std::marker::Model;

/// The most characters of a line of advice.
const MOST: usize = 250;

/// The most characters of a word that is told.
const MOST_OF_A_WORD: usize = 40;

/// What is said to the author of a text, without the end of its line: at most 250 characters, each from a space to `~`;
/// none where nothing is said.
#[derive(Drop)]
pub struct Advice {
    said: InlineOctets<MOST>,
}

impl Model for Advice {
    ghost use Rattle.std.specs.Prelude.{List, ℕ};
    ghost use Rattle.scenario_advice.specs.Said.{IsSaid};

    ghost Value = { List ℕ };

    ghost view = { λ advice. advice.said };

    ghost invariant = { λ advice. IsSaid advice.said };
}

impl Advice {
    /// Nothing is said yet.
    pub fn new() -> Advice
        ensures { result ≡ [] }
    {
        Advice {
            said: InlineOctets::new(),
        }
    }

    /// What is said.
    pub fn as_bytes(&self) -> &[u8]
        ensures said { result.now ≡ self.now }
        ensures plain { IsSaid self.now }
    {
        self.said.as_bytes()
    }

    /// Says the line as it stands, or that the text has none, where nothing is said yet.
    pub(crate) fn or_line(&mut self, line: Option<&[u8]>)
        ensures told { IsTold self.new }
    {
        if self.as_bytes().is_empty() {
            self.line_as_it_stands(line);
        }
        // Its clause: what is said is plain.
        let _ = self.as_bytes();
    }

    /// Says a line as it stands, or that the text has none.
    fn line_as_it_stands(&mut self, line: Option<&[u8]>)
        ensures some { 1 ≤ length self.new }
    {
        match line {
            Some(line) => {
                self.octets(b"the line is ");
                self.word(line);
            }
            None => self.octets(b"the text ends here"),
        }
    }

    /// Puts a number behind what is said.
    pub(crate) fn number(&mut self, number: u64) {
        let mut buffer = Buffer::new();
        self.octets(buffer.format(number).as_bytes());
    }

    /// Puts octets behind what is said, those that are no plain characters by their digits.
    pub(crate) fn octets(&mut self, octets: &[u8])
        ensures longer { length self.old ≤ length self.new }
        ensures some { 1 ≤ length octets.now → 1 ≤ length self.new }
    {
        for octet in octets {
            self.put(*octet);
        }
    }

    /// Puts a word behind what is said, in quotes; a long one is cut.
    pub(crate) fn word(&mut self, word: &[u8])
        ensures longer { length self.old ≤ length self.new }
    {
        self.octets(b"\"");
        if word.len() <= MOST_OF_A_WORD {
            self.octets(word);
        } else {
            let (front, _) = word.split_at(MOST_OF_A_WORD);
            self.octets(front);
            self.octets(b"..");
        }
        self.octets(b"\"");
    }

    /// Puts an octet behind what is said: a plain character, or `\x` and two hexadecimal digits.
    fn put(&mut self, octet: u8)
        ensures longer { length self.old ≤ length self.new }
        ensures some { 1 ≤ length self.new }
    {
        if is_plain(octet) {
            self.put_plain(octet);
            return;
        }
        let [high, low] = digits_of(octet);
        self.put_plain(b'\\');
        self.put_plain(b'x');
        self.put_plain(high);
        self.put_plain(low);
    }

    /// Puts a plain character behind what is said, if it has room.
    fn put_plain(&mut self, octet: u8)
        requires { is_plain octet ≡ true }
        ensures longer { length self.old ≤ length self.new }
        ensures some { 1 ≤ length self.new }
    {
        if self.said.len() < MOST {
            self.said.push(&[octet]);
        }
    }
}

/// Whether an octet is a character from a space to `~`.
fn is_plain(octet: u8) -> bool
    ensures { result ≡ is_plain octet }
{
    0x20 <= octet && octet <= 0x7e
}

/// The two hexadecimal digits of an octet, in lower case.
#[tactic(auto, using(crate::proofs::Digits::spelled_is_plain))]
fn digits_of(octet: u8) -> [u8; 2]
    ensures digits { result ≡ encode_lower (octet ∷ []) }
    ensures plain { list_all is_plain result ≡ true }
{
    let mut digits = [0; 2];
    match hex::encode_to_slice([octet], &mut digits) {
        Ok(()) => digits,
        Err(_) => unreachable!(),
    }
}
