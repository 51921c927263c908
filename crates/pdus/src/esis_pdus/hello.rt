//! The PDUs that this system makes.
ghost use Rattle.pdus.specs.ClnpOptions.Grammar.{joined};
ghost use Rattle.pdus.specs.ClnpOptions.Parameter.{spelled};
ghost use Rattle.pdus.specs.Nsap.Address.{IsAddress};
ghost use Rattle.pdus.specs.EsisPdus.Grammar.{IsTitleOrNone, Spells};
ghost use Rattle.pdus.specs.EsisPdus.Making.{esh_length, timer_options, value};
ghost use Rattle.pdus.specs.EsisPdus.Rules.{refusal};
ghost use Rattle.pdus.specs.EsisPdus.Spelling.{title_octets};
ghost use Rattle.pdus.specs.PduHeader.Spelling.{counted};
ghost use Rattle.std.specs.Option.{option_copied};
ghost use Rattle.std.specs.Prelude.{◌≡◌, ◌+◌, ◌<◌, ◌≤◌, ◌++◌, [], All, IfErr, IfOk, IsOk, None, ◌↔◌, length};

use crate::esis_pdus::kind::Kind;
use crate::esis_pdus::pdu::EsisBody;
use crate::esis_pdus::write::{MOST, begun, finished};
use crate::pdu_header::base::InlineOctets;
use crate::pdu_header::nsaps::{Address, Snpa};
use crate::pdu_header::views::Head;
use byteorder::{BigEndian, ByteOrder};

/// The code of the suggested end system configuration timer (ISO 9542:1988).
pub(crate) const TIMER: u8 = 0xc6;

/// Why no hello can be made.
#[derive(Clone, Copy, Debug, PartialEq, Eq)]
pub enum HelloRefusal {
    /// The header would have this number of octets, above 254 (ISO 9542, section 7.2).
    TooLong { octets: usize },
}

/// An end system hello of these addresses, with a holding time in seconds, and with a checksum where it
/// is `sealed` (ISO 9542, section 7.6).
///
/// # Errors
///
/// `TooLong` exactly where the header passes 254 octets, with their number.
pub fn esh(hold: u16, addresses: &[Address], sealed: bool) -> Result<Head, HelloRefusal>
    ensures made { IfOk result (λ head. Spells (value hold sealed (EsisBody.Esh addresses.now) []) head) }
    ensures accepted { IfOk result (λ head. refusal head ≡ None) }
    ensures fits { IsOk result ↔ (esh_length addresses.now ≤ 254) }
    ensures refused { IfErr result (λ r. r ≡ HelloRefusal.TooLong (esh_length addresses.now)) }
{
    let octets = esh_len(addresses);
    if octets > MOST {
        return Err(HelloRefusal::TooLong { octets });
    }
    let mut plain = begun(Kind::EndSystemHello, hold);
    plain.push(&[addresses.len() as u8]);
    push_addresses(&mut plain, addresses);
    Ok(finished(&plain, sealed))
}

/// The octets of an end system hello of these addresses.
fn esh_len(addresses: &[Address]) -> usize
    ensures value { result ≡ esh_length addresses.now }
    ensures each { All IsAddress addresses.now }
{
    let mut octets = 10;
    for address in addresses {
        octets += 1 + address.as_bytes().len();
    }
    octets
}

/// Puts addresses one behind another, each behind its length.
fn push_addresses(plain: &mut InlineOctets<MOST>, addresses: &[Address])
    requires { length plain.old + length (joined addresses.now) ≤ 254 }
    ensures { plain.new ≡ plain.old ++ joined addresses.now }
{
    for address in addresses {
        plain.push_counted(address.as_bytes());
    }
}

/// An intermediate system hello of this title, with a holding time in seconds, a suggested end system
/// configuration timer in seconds if there is one, and a checksum where it is `sealed` (ISO 9542, section
/// 7.7).
pub fn ish(hold: u16, title: &Address, suggested: Option<u16>, sealed: bool) -> Head
    ensures made { Spells (value hold sealed (EsisBody.Ish title.now) (timer_options suggested)) result }
    ensures accepted { refusal result ≡ None }
{
    let mut plain = begun(Kind::IntermediateSystemHello, hold);
    plain.push_counted(title.as_bytes());
    push_timer(&mut plain, suggested);
    finished(&plain, sealed)
}

/// Puts the suggested timer, if there is one.
fn push_timer(plain: &mut InlineOctets<MOST>, suggested: Option<u16>)
    requires { length plain.old + 4 ≤ 254 }
    ensures { plain.new ≡ plain.old ++ spelled (timer_options suggested) }
{
    let Some(seconds) = suggested else {
        return;
    };
    let mut value = [0; 2];
    BigEndian::write_u16(&mut value, seconds);
    plain.push(&[TIMER, 2, value[0], value[1]]);
}

/// A redirect: towards the destination `to` the better hop is at the subnetwork address `via`. The title is
/// that of the system there, none where it is the destination itself. With a holding time in seconds, and
/// with a checksum where it is `sealed` (ISO 9542, section 7.8).
pub fn rd(hold: u16, to: &Address, via: &Snpa, title: Option<&Address>, sealed: bool) -> Head
    ensures made { Spells (value hold sealed (EsisBody.Rd to.now via.now (option_copied title.entry)) []) result }
    ensures accepted { refusal result ≡ None }
{
    let mut plain = begun(Kind::Redirect, hold);
    plain.push_counted(to.as_bytes());
    plain.push_counted(via.as_bytes());
    push_title(&mut plain, title);
    finished(&plain, sealed)
}

/// Puts a redirect's title behind its length, which is 0 where there is none.
pub(crate) fn push_title(plain: &mut InlineOctets<MOST>, title: Option<&Address>)
    requires { length plain.old + 21 ≤ 254 }
    ensures octets { plain.new ≡ plain.old ++ counted (title_octets (option_copied title.entry)) }
    ensures title { IsTitleOrNone (option_copied title.entry) }
{
    match title {
        Some(title) => plain.push_counted(title.as_bytes()),
        None => plain.push_counted(&[]),
    }
}
