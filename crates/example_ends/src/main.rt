//! A client and a server with their ends, over a TCP socket on this machine: what a program does
//! that has a transport of its own.
#![tactic(auto)]

use anyhow::{Context, bail};
use std::alloc::Global;
use std::io::{Read, Write};
use std::net::{Net, TcpListener, TcpStream};
use tds_client::Sent;
use tds_ends::{ClientEnd, RequestStatus, ServerEnd};
use tds_packet::PacketSize;
use tds_request::{BatchText, Request};
use tds_server::Worked;
use tds_session::ScriptEngine;
use tds_token::Token;

fn main(rt: HostRuntime) -> anyhow::Result<()> {
    let alloc = rt.alloc();
    let size = PacketSize::new(512).context("no packet size")?;
    let listener = TcpListener::bind(&rt, "127.0.0.1:0")?;
    let near = TcpStream::connect(&rt, listener.local_addr()?)?;
    let (far, _) = listener.accept()?;
    let mut client = ClientEnd::new(alloc, size);
    let mut server = ServerEnd::new(alloc, ScriptEngine, size);
    for text in ["set a 5;get a", "rows 1 3", "say hello"] {
        ask(alloc, &near, &mut client, text)?;
        answer(alloc, &far, &mut server)?;
        let mut told = Vec::new(alloc);
        let status = hear(&near, &mut client, &mut told)?;
        println!(rt; "{text}: {status:?}, {} tokens", told.len())?;
    }
    Ok(())
}

/// Starts a request and sends all its packets.
fn ask(
    alloc: Global,
    mut stream: &TcpStream,
    client: &mut ClientEnd,
    text: &str,
) -> anyhow::Result<()> {
    let mut units = Vec::new(alloc);
    for unit in text.encode_utf16() {
        units.push(unit)?;
    }
    let text = BatchText::new(units).context("a batch has at most 2,000 units")?;
    if client.client_mut().start(&Request::Batch(text)).is_err() {
        bail!("a request is underway");
    }
    let mut out = Vec::new(alloc);
    for _ in 0..u64::MAX {
        match client.client_mut().send(&mut out) {
            Ok(Sent::More) => {}
            Ok(Sent::Last) => break,
            Err(_) => bail!("nothing to send"),
        }
    }
    stream.write_all(&out)?;
    Ok(())
}

/// Takes what comes until a request is answered, and sends the answer.
fn answer(
    alloc: Global,
    mut stream: &TcpStream,
    server: &mut ServerEnd<ScriptEngine>,
) -> anyhow::Result<()> {
    let mut piece = [0u8; 64];
    for _ in 0..u64::MAX {
        let count = stream.read(&mut piece)?;
        if count == 0 {
            bail!("the client has gone");
        }
        let mut out = Vec::new(alloc);
        match server.serve(&piece[..count], &mut out).stop {
            None => {}
            Some(stop) => bail!("{stop:?}"),
        }
        let mut finished = false;
        for _ in 0..u64::MAX {
            match server.work(&mut out)? {
                Worked::Step => {}
                Worked::Finished => finished = true,
                Worked::Idle => break,
            }
        }
        stream.write_all(&out)?;
        if finished {
            return Ok(());
        }
    }
    bail!("no end")
}

/// Takes what comes until the request is settled.
fn hear(
    mut stream: &TcpStream,
    client: &mut ClientEnd,
    told: &mut Vec<Token>,
) -> anyhow::Result<RequestStatus> {
    let mut piece = [0u8; 64];
    for _ in 0..u64::MAX {
        let count = stream.read(&mut piece)?;
        let fed = client.listen(&piece[..count], told);
        match fed.stop {
            None => {}
            Some(stop) => bail!("{stop:?}"),
        }
        match fed.settled {
            Some(status) => return Ok(status),
            None if count == 0 => bail!("the server has gone"),
            None => {}
        }
    }
    bail!("no end")
}
