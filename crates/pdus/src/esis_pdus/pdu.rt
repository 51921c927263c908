use crate::esis_pdus::addresses::AddressList;
use crate::pdu_header::nsaps::{Address, Snpa};

/// The kind of an ES-IS PDU and its addresses (ISO 9542, sections 7.6 to 7.8).
#[derive(Drop)]
pub enum EsisBody<'a> {
    /// An end system hello: the addresses of the system, in order; there may be none.
    Esh {
        addresses: AddressList<'a>,
    },
    /// An intermediate system hello: the network entity title of the system.
    Ish {
        title: Address,
    },
    /// A redirect: the subnetwork address of the better hop towards a destination, and that hop's
    /// network entity title, none where it is the destination itself.
    Rd {
        to: Address,
        via: Snpa,
        title: Option<Address>,
    },
}

/// An ES-IS PDU that stands at the front of a frame (ISO 9542, section 7).
#[derive(Drop)]
pub struct EsisPdu<'a> {
    /// The holding time, in seconds (section 7.2).
    pub hold: u16,
    /// The two octets of the checksum, 0 where it isn't used (section 7.2).
    pub sum: u16,
    /// The kind and the addresses.
    pub body: EsisBody<'a>,
    /// The octets of the options part (section 7.5).
    pub options: &'a [u8],
    /// The suggested end system configuration timer of an intermediate system hello, in seconds (ISO
    /// 9542:1988).
    pub suggested: Option<u16>,
    /// What follows the PDU in its frame.
    pub rest: &'a [u8],
}

/// Why a frame is refused.
#[derive(Clone, Copy)]
pub enum EsisRefusal {
    /// It doesn't begin with 0x82, the identifier of this protocol.
    NotEsis,
    /// It breaks a rule: the least one, 1 to 12, and the place of the octet at fault, from 1 in the
    /// header; 0 is no place.
    Broken { rule: u8, place: u8 },
}
