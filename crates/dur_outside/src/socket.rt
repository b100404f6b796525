//! A UDP socket as a link, of which nothing is told but the faults.

ghost use Rattle.std.specs.Prelude.{◌≡◌, ◌≤◌, [], length, IfOk, IfSome, is_err};
ghost use Rattle.dur_outside.specs.Causes.{HasCause, Rose, faults_after, one_more};

use crate::again::send_again;
use crate::{Failed, LONGEST_DATAGRAM, Link};
use std::io;
use std::io::ErrorKind;
use std::marker::Model;
use std::net::{SocketAddr, UdpSocket};

/// A UDP socket. It sends to the peer of the last datagram that came. Of a datagram that is longer than the
/// longest over IPv4, as IPv6 allows, it hears the front.
#[derive(Drop)]
pub struct UdpLink {
    socket: UdpSocket,
    peer: SocketAddr,
    faults: u64,
}

impl Model for UdpLink {
    ghost use Rattle.std.specs.Prelude.{ℕ};

    ghost Value = { ℕ };

    ghost view = { λ l. l.faults };
}

impl UdpLink {
    /// A link over this socket, which is bound. It sends to `peer` before a datagram came. `receive`
    /// waits as long as the socket's read timeout says, and then answers that nothing was waiting.
    pub fn new(socket: UdpSocket, peer: SocketAddr) -> UdpLink
        ensures { result ≡ 0 }
    {
        UdpLink {
            socket,
            peer,
            faults: 0,
        }
    }

    // Counts a fault.
    fn fail(&mut self) -> Failed
        ensures count { self.new ≡ one_more self.old }
        ensures later { self.old ≤ self.new }
        ensures rose { Rose self.old self.new }
    {
        self.faults = self.faults.saturating_add(1);
        Failed
    }
}

impl Link for UdpLink {
    ghost tells = { ⊥ };

    ghost heard = { λ _. [] };

    ghost sent = { λ _. [] };

    ghost link_faults = { λ l. l };

    fn receive(&mut self, into: &mut [u8]) -> Result<Option<usize>, Failed>
        requires { 65507 ≤ length into.old }
        ensures bound { IfOk result (λ got. IfSome got (λ n. n ≤ 65507)) }
        ensures cause { HasCause self.old self.new result }
        ensures count { self.new ≡ faults_after (is_err result) self.old }
    {
        match receive_most(&self.socket, into, LONGEST_DATAGRAM) {
            Ok((count, from)) => {
                self.peer = from;
                Ok(Some(count))
            }
            Err(error) if is_none(&error) => Ok(None),
            Err(_) => Err(self.fail()),
        }
    }

    /// It fails where the system does, and where it sends less than the whole datagram. A call that a signal
    /// interrupts is made again.
    fn send(&mut self, bytes: &[u8]) -> Result<(), Failed>
        ensures cause { HasCause self.old self.new result }
        ensures count { self.new ≡ faults_after (is_err result) self.old }
    {
        match send_again(&self.socket, bytes, self.peer) {
            Ok(count) if count == bytes.len() => Ok(()),
            _ => Err(self.fail()),
        }
    }
}

// The limit is a variable here: a proof with the number in its place takes too many steps.
fn receive_most(socket: &UdpSocket, into: &mut [u8], most: usize) -> io::Result<(usize, SocketAddr)>
    requires { most ≤ length into.old }
    ensures { IfOk result (λ r. r.0 ≤ most) }
{
    socket.recv_from(into.split_at_mut(most).0)
}

// Nothing came in time, or a signal came first.
fn is_none(error: &io::Error) -> bool {
    let kind = error.kind();
    kind == ErrorKind::WouldBlock || kind == ErrorKind::TimedOut || kind == ErrorKind::Interrupted
}
