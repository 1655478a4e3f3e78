// What is printed of a reply: in pieces, and not by `Display`, since `KeepsFailure` is promised of each call of a writer.
use super::carried::Reply;
use body_read::{Body, DeviceId, badge_number, rest, triple_at};
use output::Writer;
use packet_parse::ParsedPacket;
use std::io;

fn put_device(to: &mut Writer, id: DeviceId) -> io::Result<()> {
    to.put(b" vendor")?;
    to.put_bytes(&[id.vendor1, id.vendor2, id.vendor3])?;
    to.put_number(
        b"",
        format_args!(
            " model {} version {} serial {}",
            id.model, id.version, id.serial
        ),
    )?;
    to.put_number(
        b"",
        format_args!(" firmware {} {} {}", id.major, id.minor, id.build),
    )
}

fn put_triples(to: &mut Writer, body: Body, payload: &[u8]) -> io::Result<()> {
    let triples = (0..payload.len() / 3).filter_map(|i| triple_at(body, payload, i));
    for t in triples {
        to.put_number(
            b"",
            format_args!(
                " function {} compliance {} number {}",
                t.function, t.compliance, t.number
            ),
        )?;
    }
    Ok(())
}

// What a body says, in the table's order.
fn put_body(to: &mut Writer, body: Body, payload: &[u8]) -> io::Result<()> {
    match body {
        Body::Ack => Ok(()),
        Body::Nak { error } => {
            to.put_number(b" error ", error)?;
            to.put_bytes(rest(body, payload))
        }
        Body::PdId(id) => put_device(to, id),
        Body::PdCap => put_triples(to, body, payload),
        Body::LStatR { tamper, power } => to.put_number(
            b"",
            format_args!(" tamper {tamper} power {power}"),
        ),
        Body::Raw {
            reader,
            format,
            bits,
        } => {
            to.put_number(
                b"",
                format_args!(" reader {reader} format {format} bits {bits}"),
            )?;
            to.put_bytes(rest(body, payload))?;
            match badge_number(body, payload) {
                Some(n) => to.put_number(b" number ", n),
                None => Ok(()),
            }
        }
        Body::Keypad { reader, count } => {
            to.put_number(b"", format_args!(" reader {reader} digits {count}"))?;
            to.put_bytes(rest(body, payload))
        }
    }
}

// A code that is not listed has no name, and stands as the byte that it is. By the code, since a refused reply has no `Body`.
fn put_name(to: &mut Writer, code: u8) -> io::Result<()> {
    match code {
        0x40 => to.put(b" ACK"),
        0x41 => to.put(b" NAK"),
        0x45 => to.put(b" PDID"),
        0x46 => to.put(b" PDCAP"),
        0x48 => to.put(b" LSTATR"),
        0x50 => to.put(b" RAW"),
        0x53 => to.put(b" KEYPAD"),
        _ => to.put_byte(code),
    }
}

// The line of a reply in the clear; any other reply has none.
pub(crate) fn put_reply(
    to: &mut Writer,
    at: usize,
    p: ParsedPacket,
    payload: &[u8],
    reply: Reply,
) -> io::Result<()> {
    let Reply::Clear(answer) = reply else {
        return Ok(());
    };
    to.put_number(b"", format_args!("{at} {}", p.addr.as_byte()))?;
    put_name(to, p.code)?;
    match answer {
        Ok(body) => put_body(to, body, payload)?,
        Err(e) => to.put_number(b" refused ", e.number())?,
    }
    to.put(b"\n")
}
