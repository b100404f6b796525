//! Calls of the system, made again where a signal came first.

ghost use Rattle.std.specs.Prelude.{◌≡◌, ◌≢◌, ◌↔◌, IfErr, IsTrue};
ghost use Rattle.std.specs.Io.{ReadsAtMost, WritesAtMost};
ghost use Rattle.std.specs.Io.KnownBytes.{ReadConsumes};
ghost use Rattle.std.specs.IoError.{error_kind};
ghost use Rattle.std.specs.declared.io.ErrorKind.TheVariants.{Interrupted};

use std::io;
use std::io::{ErrorKind, Read, Write};
use std::net::{SocketAddr, UdpSocket};

// Whether a signal came before the call did anything.
fn is_interrupted(error: &io::Error) -> bool
    ensures { IsTrue result ↔ (error_kind error.now ≡ Interrupted) }
{
    error.kind() == ErrorKind::Interrupted
}

// Signals came before each of 2^64 - 1 calls.
fn gives_up() -> io::Error
    ensures { error_kind result ≢ Interrupted }
{
    io::Error::from(ErrorKind::TimedOut)
}

/// One read that no signal ends.
pub(crate) fn read_again<R: Read>(reader: &mut R, into: &mut [u8]) -> io::Result<usize>
    ensures bound { ReadsAtMost result into.new }
    ensures bytes { ReadConsumes (R.remaining reader.old) (R.remaining reader.new) result into.new }
    ensures again { IfErr result (λ e. error_kind e ≢ Interrupted) }
{
    for _ in 0..u64::MAX {
        match reader.read(into) {
            Ok(count) => return Ok(count),
            Err(error) => {
                if !is_interrupted(&error) {
                    return Err(error);
                }
            }
        }
    }
    Err(gives_up())
}

/// One write that no signal ends.
pub(crate) fn write_again<W: Write>(writer: &mut W, piece: &[u8]) -> io::Result<usize>
    ensures bound { WritesAtMost result piece.now }
    ensures again { IfErr result (λ e. error_kind e ≢ Interrupted) }
{
    for _ in 0..u64::MAX {
        match writer.write(piece) {
            Ok(count) => return Ok(count),
            Err(error) => {
                if !is_interrupted(&error) {
                    return Err(error);
                }
            }
        }
    }
    Err(gives_up())
}

/// Sends a datagram, which no signal ends.
pub(crate) fn send_again(socket: &UdpSocket, bytes: &[u8], peer: SocketAddr) -> io::Result<usize>
    ensures { IfErr result (λ e. error_kind e ≢ Interrupted) }
{
    for _ in 0..u64::MAX {
        match socket.send_to(bytes, peer) {
            Ok(count) => return Ok(count),
            Err(error) => {
                if !is_interrupted(&error) {
                    return Err(error);
                }
            }
        }
    }
    Err(gives_up())
}
