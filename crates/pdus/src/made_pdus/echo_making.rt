//! Echo PDUs made.
ghost use Rattle.std.specs.Prelude.{◌≡◌, ◌≤◌, None, is_some, length, option_map};
ghost use Rattle.pdus.specs.PduHeader.Parts.{AreFit, parts_length, parts_value, too_long};
ghost use Rattle.pdus.specs.PduHeader.View.{part_value, pdu_value};
ghost use Rattle.pdus.specs.MadePdus.Reply.{needs_identifier, part_of, plain_length, reply_of};

use crate::pdu_header::nsaps::Address;
use crate::pdu_header::options::OptionList;
use crate::pdu_header::{FIXED_PART, Kind, Parts, Pdu, SEGMENTATION_PART, SegPart};

/// The octets of a PDU that every subnetwork takes in one piece.
const MOST_UNSEGMENTED: usize = 512;

/// Whether an echo PDU with so many octets of data needs a data unit identifier: without a segmentation part it would
/// have more than 512 octets, and not every subnetwork takes it in one piece.
pub fn needs_id(from: &Address, to: &Address, body_len: usize) -> bool
    ensures { result ≡ needs_identifier from.now to.now body_len }
{
    body_len > MOST_UNSEGMENTED - plain_len(from, to)
}

/// What the header of the reply to an echo request is made from, where the reply's data are the request's. It has a
/// lifetime in ticks of 500 ms, a segmentation part exactly where there is an identifier for it, and a checksum where
/// it is `sealed`.
#[tactic(auto, using(crate::proofs::MadePdus::ReplyLengths::short))]
pub fn reply(request: &Pdu<'_>, id: Option<u16>, life: u8, sealed: bool) -> Parts
    requires few { length request.now.body.now ≤ 64512 }
    requires id { is_some id ≡ needs_identifier request.now.to request.now.from (length request.now.body.now) }
    ensures value { parts_value result request.now.body.now ≡ reply_of (pdu_value request.now) id life sealed }
    ensures fit { AreFit result (length request.now.body.now) }
    ensures short { too_long (parts_length result) (length request.now.body.now) ≡ None }
{
    // Its clause: no octets are no options.
    crate::pdu_header::options::laws::spelled_options_read_back();
    Parts {
        kind: Kind::Erp,
        life,
        report: false,
        more: false,
        to: request.from,
        from: request.to,
        seg: segmentation(request, id),
        options: OptionList::new(),
        sealed,
    }
}

/// The segmentation part of the reply, where there is an identifier for it: the reply is the whole of its unit (section
/// 7.4).
fn segmentation(request: &Pdu<'_>, id: Option<u16>) -> Option<SegPart>
    requires { length request.now.body.now ≤ 64512 }
    ensures part { option_map part_value result ≡ part_of (pdu_value request.now) id }
    ensures few { plain_length request.now.to request.now.from ≤ 51 }
{
    let head_len = plain_len(&request.to, &request.from) + SEGMENTATION_PART;
    let id = id?;
    Some(SegPart {
        id,
        offset: 0,
        total: (head_len + request.body.len()) as u16,
    })
}

/// The octets of a header without segmentation part and options.
fn plain_len(from: &Address, to: &Address) -> usize
    ensures value { result ≡ plain_length from.now to.now }
    ensures few { result ≤ 51 }
{
    FIXED_PART + 2 + from.as_bytes().len() + to.as_bytes().len()
}
