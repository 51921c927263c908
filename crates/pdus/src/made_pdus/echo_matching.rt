//! Replies matched with requests.
ghost use Rattle.std.specs.Prelude.{◌≡◌, ◌↔◌, ◌++◌, IsTrue};
ghost use Rattle.std.specs.Str.{bytes_eq};
ghost use Rattle.pdus.specs.MadePdus.Match.{AreRequest, Echoes, are_request, echoes};

use crate::pdu_header::{Kind, decode};

/// Whether the data of an echo reply answer a request with these data: they are the same, or an echo request PDU with
/// the same data and nothing behind it (RFC 1575).
pub fn matches(request_body: &[u8], reply_body: &[u8]) -> bool
    ensures answers { IsTrue result ↔ Echoes request_body.now reply_body.now }
    ensures test { result ≡ echoes request_body.now reply_body.now }
{
    matches_parts(&[], request_body, reply_body)
}

/// The same of a request's data in two parts.
pub fn matches_parts(front: &[u8], behind: &[u8], reply_body: &[u8]) -> bool
    ensures answers { IsTrue result ↔ Echoes (front.now ++ behind.now) reply_body.now }
    ensures test { result ≡ echoes (front.now ++ behind.now) reply_body.now }
{
    is_joined(reply_body, front, behind) || is_request(reply_body, front, behind)
}

/// Whether octets are those of two parts, one behind the other.
fn is_joined(octets: &[u8], front: &[u8], behind: &[u8]) -> bool
    ensures same { IsTrue result ↔ (octets.now ≡ front.now ++ behind.now) }
    ensures test { result ≡ bytes_eq octets.now (front.now ++ behind.now) }
{
    if octets.len() < front.len() {
        return false;
    }
    let (first, rest) = octets.split_at(front.len());
    first == front && rest == behind
}

/// Whether the octets are an echo request PDU with the data of two parts, and nothing behind it.
fn is_request(octets: &[u8], front: &[u8], behind: &[u8]) -> bool
    ensures answers { IsTrue result ↔ AreRequest (front.now ++ behind.now) octets.now }
    ensures test { result ≡ are_request (front.now ++ behind.now) octets.now }
{
    // Their clauses: octets spell one PDU at most, and the test says what the rule says.
    crate::pdu_header::laws::one_value();
    crate::made_pdus::echo_laws::the_test_is_the_rule();
    let Ok(pdu) = decode(octets) else {
        return false;
    };
    let Kind::Erq = pdu.kind else {
        return false;
    };
    is_joined(pdu.body, front, behind) && pdu.rest.is_empty()
}
