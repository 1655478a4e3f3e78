// The README's first use: read a frame; shake hands, seal a badge at the reader, open it at the controller, read its number.
#![tactic(auto)]

use packet::{Address, Sqn};
use refusal::Refusal;
use secure::{Direction, Session, ToSeal};

// Both ends past the handshake.
#[derive(Clone, Copy)]
struct Ends {
    controller: Session,
    reader: Session,
}

fn code_of(frame: &[u8]) -> Result<u8, Refusal> {
    let packet = packet::parse(frame)?;
    Ok(packet.code)
}

// Each answer goes to the other end in a frame; here it is handed over.
fn handshake(
    scbk: [u8; 16],
    cuid: [u8; 8],
    rnd_a: [u8; 8],
    rnd_b: [u8; 8],
) -> Result<Ends, Refusal> {
    let asked = Session::new(scbk).challenge(rnd_a);
    asked.answer?;
    let met = Session::new_reader(scbk, cuid).receive_challenge(rnd_a, rnd_b);
    let known = asked.session.receive_ccrypt(cuid, rnd_b, met.answer?);
    known.answer?;
    let server = known.session.server_cryptogram()?;
    let last = met.session.receive_scrypt(server);
    let confirmed = known.session.confirm_rmac_i(last.answer?);
    confirmed.answer?;
    Ok(Ends {
        controller: confirmed.session,
        reader: last.session,
    })
}

// The badge's number as the controller reads it in what the reader sealed, if it has one.
fn number_across(ends: Ends, badge: &[u8]) -> Result<Option<u64>, Refusal> {
    let reply = ToSeal {
        addr: Address::from_raw(0x85),
        sqn: Sqn::ZERO,
        direction: Direction::PdToAcu,
        encrypt: true,
        code: 0x50,
    };
    let mut frame = [0; 64];
    secure::seal(ends.reader, reply, badge, &mut frame).answer?;

    let mut work = [0; 64];
    let place = secure::unseal(ends.controller, &frame, &mut work).answer?;
    let payload = secure::payload(&frame, &work, place);

    let body = body_read::read(code_of(&frame)?, payload)?;
    Ok(body_read::badge_number(body, payload))
}

fn put_code(rt: &HostRuntime, frame: &[u8]) {
    let _ = match code_of(frame) {
        Ok(code) => println!(rt; "code {code}"),
        Err(e) => println!(rt; "refused {}", e.number()),
    };
}

fn put_number(rt: &HostRuntime, number: Result<Option<u64>, Refusal>) {
    let _ = match number {
        Ok(Some(n)) => println!(rt; "badge {n}"),
        Ok(None) => println!(rt; "no number"),
        Err(e) => println!(rt; "refused {}", e.number()),
    };
}

fn main(rt: HostRuntime) {
    put_code(&rt, &[0x53, 0x05, 0x08, 0x00, 0x04, 0x60, 0xBC, 0x89]);
    put_code(&rt, &[0x53, 0x05, 0x08, 0x00, 0x04, 0x60, 0xBC, 0x88]);
    let badge = [0, 1, 26, 0, 0x8F, 0xA3, 0x40, 0x40];
    let number = handshake([7; 16], [1; 8], [2; 8], [3; 8]).and_then(|ends| number_across(
        ends, &badge,
    ));
    put_number(&rt, number);
}
