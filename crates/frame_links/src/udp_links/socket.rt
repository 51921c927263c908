//! Sockets of datagrams, and what comes of one look.
ghost use Rattle.std.specs.Prelude.{◌≡◌, ◌≤◌, List, ℕ, length, IfOk, IfSome, IsOkAnd};
ghost use Rattle.std.specs.IoError.{error_kind};
ghost use Rattle.frame_links.specs.UdpLinks.Sockets.{GaveOne, LookedAt, SocketState, datagram_in, end_at_address, gift_of, is_again, passes, seen_of, told_in};

use crate::link_board::base::Failed;
use crate::link_board::{End, Got};
use std::io;
use std::io::ErrorKind;
use std::net::{Ipv4Addr, SocketAddr, SocketAddrV4, UdpSocket};

/// A socket of datagrams.
///
/// What is seen of it is what came of the looks at it so far, and the datagrams that were given to it, where it tells them.
pub trait Datagrams {
    // The looks and the datagrams, where they are told.
    ghost told: { Self → SocketState };

    /// Puts the octets of the datagram that has come into the front of `buf`, and says how many they are and from where it
    /// came.
    ///
    /// # Errors
    ///
    /// `WouldBlock` where none has come; those of the machine.
    fn receive(&mut self, buf: &mut [u8]) -> io::Result<(usize, SocketAddr)>
        ensures within { IfOk result (λ came. came.0 ≤ length buf.new) }
        ensures looked { LookedAt (told self.old) (told self.new) (datagram_in result buf.new) };

    /// Gives a datagram for an address, and says how many octets were taken.
    ///
    /// # Errors
    ///
    /// `WouldBlock` where there is no room just now; those of the machine.
    fn give(&mut self, datagram: &[u8], to: SocketAddrV4) -> io::Result<usize>
        ensures { GaveOne (told self.old) (told self.new) (gift_of (end_at_address to) datagram.now result) };
}

/// The machine's socket tells nothing.
impl Datagrams for UdpSocket {
    ghost use Rattle.std.specs.Prelude.{None};

    ghost told = { λ _. record { looks = None; gifts = None } };

    fn receive(&mut self, buf: &mut [u8]) -> io::Result<(usize, SocketAddr)> {
        self.recv_from(buf)
    }

    fn give(&mut self, datagram: &[u8], to: SocketAddrV4) -> io::Result<usize> {
        self.send_to(datagram, to)
    }
}

/// Whether an error of this kind passes.
fn passes(kind: ErrorKind) -> bool
    ensures { result ≡ passes kind }
{
    matches!(
        kind,
        ErrorKind::WouldBlock | ErrorKind::TimedOut | ErrorKind::Interrupted
    )
}

/// What a link tells of a look at its socket that came to this.
pub(crate) fn told_of(came: io::Result<(usize, SocketAddr)>) -> Result<Option<Got>, Failed>
    ensures told { (buffer : List ℕ) → told_in result buffer ≡ seen_of (datagram_in came buffer) }
    ensures len { IfOk result (λ look. IfSome look (λ got. IsOkAnd came (λ came. got.len ≡ came.0))) }
{
    match came {
        Ok((len, SocketAddr::V4(from))) => Ok(Some(Got {
            len,
            from: end_at(from).snpa(),
            group: false,
        })),
        Ok((_, SocketAddr::V6(_))) => Ok(None),
        Err(error) if passes(error.kind()) => Ok(None),
        Err(_) => Err(Failed),
    }
}

/// Whether a datagram that was given so has to be given again.
pub(crate) fn is_again(outcome: &io::Result<usize>) -> bool
    ensures { result ≡ is_again outcome.now }
{
    match outcome {
        Ok(_) => false,
        Err(error) => passes(error.kind()),
    }
}

/// The end at a socket address.
fn end_at(address: SocketAddrV4) -> End
    ensures { result ≡ end_at_address address }
{
    End {
        address: address.ip().octets(),
        port: address.port(),
    }
}

/// The socket address of an end.
pub(crate) fn address_of(end: End) -> SocketAddrV4
    ensures { end_at_address result ≡ end }
{
    SocketAddrV4::new(Ipv4Addr::from_octets(end.address), end.port)
}
