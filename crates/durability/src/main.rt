//! A durability service for topics of OMG DDS: it keeps samples for readers that join late.
#![tactic(auto)]

mod argument;
mod files;
mod late;
mod run;
mod status;
#[cfg(test)]
mod tests;
mod words;

use dur_outside::{FileDisk, FileRig, OutputRig, Rig, Sink, StdSink, StdSource, UdpLink};
use dur_rerun::Status;
use dur_rerun::late::LateStatus;
use files::{files_to_read, files_to_store};
use late::{late_number, say_late_fault};
use run::durability;
use status::{number, say_fault};
use std::net::{SocketAddr, UdpSocket};
use std::process::ExitCode;
use std::time::Duration;
use std::{env, io};
use words::{Line, read_words};

/// How long `late` waits for a datagram in a turn, in milliseconds.
const WAIT: u64 = 100;

fn main(rt: HostRuntime) -> ExitCode {
    let mut err = StdSink::new(rt.stderr());
    let words = match read_args(&rt) {
        Ok(words) => words,
        Err(error) => {
            let status = status_of_words(&error);
            say_fault(&mut err, &status);
            return ExitCode::from(number(&status));
        }
    };
    match read_words(rt.alloc(), &words) {
        Ok(Line::Late { peer, .. }) => run_late(&rt, &words, peer.text(), &mut err),
        Ok(Line::Rerun { dir }) => run_over(&rt, &words, files_to_store(&rt, dir.text()), &mut err),
        Ok(Line::Check { dir }) => run_over(&rt, &words, files_to_read(&rt, dir.text()), &mut err),
        _ => {
            let rig = OutputRig::new(StdSink::new(rt.stdout()));
            run_with(&rt, &words, rig, &mut err)
        }
    }
}

/// Runs a command over standard input and this rig.
fn run_with<R: Rig + Drop, E: Sink>(
    rt: &HostRuntime,
    words: &[String],
    rig: R,
    err: &mut E,
) -> ExitCode {
    let mut input = StdSource::new(rt.stdin());
    let ran = durability(rt.alloc(), words, &mut input, rig, err);
    ExitCode::from(number(&ran.status))
}

/// Runs a command over these files and standard output, or says why there are none.
fn run_over<E: Sink>(
    rt: &HostRuntime,
    words: &[String],
    files: io::Result<FileDisk>,
    err: &mut E,
) -> ExitCode {
    match files {
        Ok(files) => {
            let rig = FileRig::new(files, StdSink::new(rt.stdout()));
            run_with(rt, words, rig, err)
        }
        Err(error) => {
            let status = status_of_files(&error);
            say_fault(err, &status);
            ExitCode::from(number(&status))
        }
    }
}

/// Runs `late` over a socket to that address, and says what went wrong.
fn run_late<E: Sink>(rt: &HostRuntime, words: &[String], peer: &str, err: &mut E) -> ExitCode {
    let status = match link_to(rt, peer) {
        Ok(link) => {
            let mut link = link;
            let mut out = StdSink::new(rt.stdout());
            late::late(rt.alloc(), words, &mut link, &mut out)
        }
        Err(status) => status,
    };
    say_late_fault(err, status);
    ExitCode::from(late_number(status))
}

/// A link to the address that a text is, as `127.0.0.1:7400`. A text that is none is `Usage`, and a
/// socket that cannot be made is `LinkFault`.
fn link_to(rt: &HostRuntime, peer: &str) -> Result<UdpLink, LateStatus> {
    let Ok(address) = peer.parse::<SocketAddr>() else {
        return Err(LateStatus::Usage);
    };
    match socket_to(rt, address) {
        Ok(socket) => Ok(UdpLink::new(socket, address)),
        Err(_) => Err(LateStatus::LinkFault),
    }
}

/// A socket from which that address can be reached, at a port that the system chooses.
fn socket_to(rt: &HostRuntime, address: SocketAddr) -> io::Result<UdpSocket> {
    let here = if address.is_ipv4() {
        "0.0.0.0:0"
    } else {
        "[::]:0"
    };
    let socket = UdpSocket::bind(rt, here)?;
    socket.set_read_timeout(Some(Duration::from_millis(WAIT)))?;
    Ok(socket)
}

/// The status where the words cannot be had: a word that is no UTF-8 is a faulty command line.
fn status_of_words(error: &io::Error) -> Status {
    match error.kind() {
        io::ErrorKind::OutOfMemory => Status::OutOfMemory,
        _ => Status::Usage,
    }
}

/// The status where a file cannot be had.
fn status_of_files(error: &io::Error) -> Status {
    match error.kind() {
        io::ErrorKind::OutOfMemory => Status::OutOfMemory,
        _ => Status::DiskFault,
    }
}

/// The words after the program's name.
fn read_args(rt: &HostRuntime) -> io::Result<Vec<String>> {
    let mut words = Vec::new(rt.alloc());
    for word in env::args(rt)?.skip(1) {
        words.push(word)?;
    }
    Ok(words)
}
