//! Laws of the definitions. Each law is the clause of a function that does nothing.
ghost use Rattle.std.specs.Prelude.{◌≡◌, ◌↔◌, ◌≤◌, ℕ, Bool, false, IfSome, IsTrue, List, Option, None, Some, length};
ghost use Rattle.hex.specs.Hex.{IsBytes};
ghost use Rattle.pdus.specs.PduHeader.Spelling.{segment_length};
ghost use Rattle.pdus.specs.PduHeader.Value.{PduValue};
ghost use Rattle.pdus.specs.MadePdus.Match.{AreRequest, Echoes, are_request, echoes};
ghost use Rattle.pdus.specs.MadePdus.Reply.{needs_identifier, reply_of};

/// A reply answers its request.
pub fn a_reply_answers_its_request()
    ensures { (request : PduValue) (identifier : Option ℕ) (life : ℕ) (is_sealed : Bool)
        → Echoes request.body (reply_of request identifier life is_sealed).body }
{}

/// The test of a reply's data says which data answer a request.
pub fn the_test_is_the_rule()
    ensures request { (request_data octets : List ℕ) → IsBytes octets
        → IsTrue (are_request request_data octets) ↔ AreRequest request_data octets }
    ensures reply { (request_data reply_data : List ℕ) → IsBytes reply_data
        → IsTrue (echoes request_data reply_data) ↔ Echoes request_data reply_data }
{}

/// A reply that may be segmented is the whole of its unit: its total length is that of its header and its data.
pub fn a_reply_is_the_whole_of_its_unit()
    ensures { (request : PduValue) (identifier life : ℕ) (is_sealed : Bool)
        → IfSome (reply_of request (Some identifier) life is_sealed).segmentation
        (λ part. part.total ≡ segment_length (reply_of request (Some identifier) life is_sealed)) }
{}

/// A reply needs no identifier exactly where without one it has at most 512 octets.
pub fn a_reply_without_identifier_is_short()
    ensures { (request : PduValue) (life : ℕ) (is_sealed : Bool)
        → (needs_identifier request.destination request.source (length request.body) ≡ false)
        ↔ (segment_length (reply_of request None life is_sealed) ≤ 512) }
{}
