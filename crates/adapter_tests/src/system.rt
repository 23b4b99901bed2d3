//! The objects over the system itself: the standard streams, files and a TCP listener.

use crate::exchanges::{echo_once, outcome};
use gs_port::{
    AcceptAnswer, Door, OpenAnswer, ReadAnswer, Sink, Source, Whole, WriteAnswer, write_whole,
};
use gs_port_system::{HostFiles, StdinSource, StdoutSink, TcpDoor};
use std::io::{ErrorKind, Read, Write};
use std::net::{Ipv4Addr, Shutdown, TcpStream};
use std::{fs, io};

/// Tests that the standard streams answer: the written bytes are in this program's output.
pub fn the_standard_streams_answer(rt: HostRuntime) -> io::Result<bool> {
    let mut sink = StdoutSink::new(rt.stdout());
    let is_whole = matches!(write_whole(&mut sink, b"written\n"), Whole::Done);
    let is_empty = matches!(sink.write(b""), WriteAnswer::Took(0));
    let mut source = StdinSource::new(rt.stdin());
    let mut block = [0; 16];
    let has_failed = matches!(source.read(&mut block), ReadAnswer::Failed);
    Ok(is_whole && is_empty && !has_failed)
}

/// Tests files that are within a limit, beyond it, absent and folders.
pub fn files_of_the_system_are_read(rt: HostRuntime) -> io::Result<bool> {
    let alloc = rt.alloc();
    let long = vec![in alloc; b'x'; 200_000]?;
    fs::create_dir_all(&rt, "gs_port_files/inner")?;
    fs::write(&rt, "gs_port_files/long", long.as_slice())?;
    let cases = [
        ("gs_port_files/long", 200_000, (200_000, false)),
        ("gs_port_files/long", 199_998, (199_999, false)),
        ("gs_port_files/none", 4, (0, true)),
        ("gs_port_files/inner", 4, (0, true)),
    ];
    let mut files = HostFiles::new(alloc, rt);
    let mut is_read = true;
    for (name, max, expected) in cases {
        is_read = outcome(alloc, &mut files, name, max) == expected && is_read;
    }
    fs::remove_dir_all(&rt, "gs_port_files")?;
    Ok(is_read)
}

/// Sends bytes to a listener as a client, and returns the reply to the first of them that one read takes.
fn reply_to(rt: HostRuntime, bytes: &[u8]) -> io::Result<Vec<u8>> {
    let mut door = TcpDoor::new(rt);
    let OpenAnswer::Opened = door.open("127.0.0.1:0") else {
        return Err(io::Error::from(ErrorKind::AddrNotAvailable));
    };
    let port = door.port().unwrap_or(0);
    let mut client = TcpStream::connect(&rt, (Ipv4Addr::LOCALHOST, port))?;
    client.write_all(bytes)?;
    client.shutdown(Shutdown::Write)?;
    let AcceptAnswer::Accepted = echo_once(&mut door) else {
        return Err(io::Error::from(ErrorKind::ConnectionRefused));
    };
    let mut reply = Vec::new(rt.alloc());
    client.read_to_end(&mut reply)?;
    Ok(reply)
}

/// Tests a client of one read.
pub fn a_door_answers_a_client(rt: HostRuntime) -> io::Result<bool> {
    let reply = reply_to(rt, b"ping")?;
    Ok(reply.as_slice() == b"ping".as_slice())
}

/// Tests that a reply arrives whole though input of the client is left unread.
pub fn a_reply_is_whole_where_input_is_left(rt: HostRuntime) -> io::Result<bool> {
    let long = vec![in rt.alloc(); b'x'; 50_000]?;
    let reply = reply_to(rt, long.as_slice())?;
    Ok(reply.as_slice() == &long[..16])
}
