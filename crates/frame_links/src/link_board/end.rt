//! Ends of links over UDP.
ghost use Rattle.std.specs.Prelude.{◌≡◌};
ghost use Rattle.frame_links.specs.LinkBoard.Ends.{end_at, snpa_of};

use byteorder::{BigEndian, ByteOrder};
use pdus::nsap::Snpa;
use pdus::nsap::base::InlineOctets;

/// An end of links over UDP: an IPv4 address, and a port.
#[derive(Clone, Copy, Default, PartialEq, Eq)]
pub struct End {
    /// The four octets of the address.
    pub address: [u8; 4],
    /// The port.
    pub port: u16,
}

impl End {
    /// The end with this SNPA.
    ///
    /// `None` exactly where it is that of no end: it isn't of six octets, or the port is 0.
    pub fn at(snpa: &Snpa) -> Option<End>
        ensures { result ≡ end_at snpa.now }
    {
        let octets = snpa.as_bytes();
        if octets.len() != 6 {
            return None;
        }
        let (address, port) = octets.split_first_chunk::<4>()?;
        let port = BigEndian::read_u16(port);
        if port == 0 {
            return None;
        }
        Some(End {
            address: *address,
            port,
        })
    }

    /// The SNPA of the end: the four octets of its address, and the two of its port.
    pub fn snpa(&self) -> Snpa
        ensures { result ≡ snpa_of self.now }
    {
        let mut port = [0; 2];
        BigEndian::write_u16(&mut port, self.port);
        let mut octets = InlineOctets::<6>::of(&self.address);
        octets.push(&port);
        match Snpa::from_bytes(octets.as_bytes()) {
            Ok(snpa) => snpa,
            Err(_) => unreachable!(),
        }
    }
}
