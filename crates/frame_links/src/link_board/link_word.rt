//! The reader of link words.
ghost use Rattle.std.specs.Prelude.{◌≡◌, ◌∷◌, [], None, Some, MatchOption};
ghost use Rattle.frame_links.specs.LinkBoard.Words.{address_in, end_of, is_link_word, link_ends, number_of, parts_at, peer_of, role_of};

use crate::link_board::end::End;
use crate::link_board::ends::{LinkEnds, Peer, Role};
use crate::link_board::word_part::{first_part, number_of};
use arrayvec::ArrayVec;

/// A decimal number up to 255, without sign or leading zero.
fn octet_of(digits: &[u8]) -> Option<u8>
    ensures { result ≡ number_of 0 255 digits.now }
{
    Some(number_of(0, 255, digits)? as u8)
}

/// Four decimal numbers up to 255, without sign or leading zero.
fn octets_of(a: &[u8], b: &[u8], c: &[u8], d: &[u8]) -> Option<[u8; 4]>
    ensures { let reading = address_in (a.now ∷ b.now ∷ c.now ∷ d.now ∷ []) in
        MatchOption result (reading ≡ None) (λ address. reading ≡ Some address) }
{
    Some([octet_of(a)?, octet_of(b)?, octet_of(c)?, octet_of(d)?])
}

/// `A.B.C.D`.
#[tactic(auto, using(crate::proofs::LinkBoard::Parts::not_five))]
fn address_of(text: &[u8]) -> Option<[u8; 4]>
    ensures { let reading = address_in (parts_at 46 text.now) in
        MatchOption result (reading ≡ None) (λ address. reading ≡ Some address) }
{
    let (a, Some(text)) = first_part(b'.', text) else {
        return None;
    };
    let (b, Some(text)) = first_part(b'.', text) else {
        return None;
    };
    let (c, Some(text)) = first_part(b'.', text) else {
        return None;
    };
    let (d, None) = first_part(b'.', text) else {
        return None;
    };
    octets_of(a, b, c, d)
}

/// `A.B.C.D:P`.
#[tactic(auto, using(crate::proofs::LinkBoard::Parts::not_three))]
fn end_of(text: &[u8]) -> Option<End>
    ensures { result ≡ end_of text.now }
{
    let (address, Some(port)) = first_part(b':', text) else {
        return None;
    };
    let (port, None) = first_part(b':', port) else {
        return None;
    };
    let address = address_of(address)?;
    let port = number_of(1, 65_535, port)? as u16;
    Some(End { address, port })
}

/// `h` or `r`.
fn role_of(letter: u8) -> Option<Role>
    ensures { result ≡ role_of letter }
{
    match letter {
        b'h' => Some(Role::EndSystem),
        b'r' => Some(Role::IntermediateSystem),
        _ => None,
    }
}

/// A letter, and an end behind it.
fn peer_of(text: &[u8]) -> Option<Peer>
    ensures { result ≡ peer_of text.now }
{
    let (letter, text) = text.split_first()?;
    let role = role_of(*letter)?;
    let end = end_of(text)?;
    Some(Peer { role, end })
}

impl LinkEnds {
    /// The ends that a link word names: `udp:A.B.C.D:P` for the local one, and then up to 16 peers, each `,hA.B.C.D:P` for
    /// an end system or `,rA.B.C.D:P` for an intermediate system. A to D are at most 255, P is 1 to 65,535; numbers are
    /// decimal, without sign or leading zero.
    ///
    /// `None` exactly where the word is no link word.
    #[tactic(auto, unfolding(crate::specs::LinkBoard::Words::link_ends))]
    pub fn of_word(word: &[u8]) -> Option<LinkEnds>
        ensures { result ≡ link_ends word.now }
    {
        if !word.starts_with(b"udp:") {
            return None;
        }
        let (_, text) = word.split_at(4);
        let (first, mut left) = first_part(b',', text);
        let local = end_of(first)?;
        let mut peers = ArrayVec::new();
        while let Some(text) = left {
            let (part, others) = first_part(b',', text);
            let peer = peer_of(part)?;
            if peers.is_full() {
                return None;
            }
            peers.push(peer);
            left = others;
        }
        Some(LinkEnds { local, peers })
    }
}

/// Whether a word is a link word.
pub fn is_link_word(word: &[u8]) -> bool
    ensures { result ≡ is_link_word word.now }
{
    LinkEnds::of_word(word).is_some()
}
