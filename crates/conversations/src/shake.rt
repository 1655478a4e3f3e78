// The handshake, each message in a frame that goes by `channel::carry`.
use super::Ends;
use super::print::{put, told};
use channel::ToCarry;
use packet_head::{Address, ScsType, Sqn};
use refusal::Refusal;

// What the ends bring to a handshake.
#[derive(Clone, Copy)]
pub(crate) struct Numbers {
    pub rnd_a: [u8; 8],
    pub rnd_b: [u8; 8],
    pub cuid: [u8; 8],
}

// What a handshake goes over: whether its frames have a CRC, and the buffer that each is built in.
#[derive(Drop)]
pub(crate) struct Line<'a> {
    pub rt: &'a HostRuntime,
    pub crc: bool,
    pub out: &'a mut [u8],
}

// What a message's frame says of it.
#[derive(Clone, Copy)]
struct Message {
    ty: ScsType,
    addr: u8,
    code: u8,
}

const CHALLENGE: Message = Message {
    ty: ScsType::Scs11,
    addr: 0x05,
    code: 0x76,
};

const CCRYPT: Message = Message {
    ty: ScsType::Scs12,
    addr: 0x85,
    code: 0x76,
};

const SCRYPT: Message = Message {
    ty: ScsType::Scs13,
    addr: 0x05,
    code: 0x77,
};

const RMAC_I: Message = Message {
    ty: ScsType::Scs14,
    addr: 0x85,
    code: 0x78,
};

// What the reader answers to the challenge.
#[derive(Clone, Copy)]
struct Reply {
    cuid: [u8; 8],
    rnd_b: [u8; 8],
    client: [u8; 16],
}

impl From<Reply> for [u8; 32] {
    fn from(reply: Reply) -> [u8; 32] {
        let Reply {
            cuid,
            rnd_b,
            client,
        } = reply;
        let mut bytes = [0; 32];
        // Byte by byte: `copy_from_slice` of each of the three was tried, and the bound of the third was not proved.
        let joined = cuid.iter().chain(&rnd_b).chain(&client);
        for (to, from) in bytes.iter_mut().zip(joined) {
            *to = *from;
        }
        bytes
    }
}

impl From<[u8; 32]> for Reply {
    fn from(bytes: [u8; 32]) -> Reply {
        Reply {
            cuid: *bytes.first_chunk().unwrap(),
            rnd_b: *bytes[8..].first_chunk().unwrap(),
            client: *bytes.last_chunk().unwrap(),
        }
    }
}

impl Line<'_> {
    // Sends bytes in a frame whose block says that the key is the reader's own; what the peer reads in what went over the line, zeros if
    // that is not as long.
    fn say<const N: usize>(
        &mut self,
        message: Message,
        bytes: [u8; N],
    ) -> Result<[u8; N], Refusal> {
        let frame = ToCarry {
            ty: message.ty,
            addr: Address::from_raw(message.addr),
            sqn: Sqn::ZERO,
            use_crc: self.crc,
            code: message.code,
        };
        let out = &mut *self.out;
        let carried = channel::carry(frame, b"\x01", &bytes, out);
        carried.sent?;
        let _ = print!(self.rt; " {}", carried.place.len);
        let seen = carried.place.of(channel::on_line(out, carried.sent));
        let mut read = [0; N];
        if seen.len() == N {
            read.copy_from_slice(seen);
        }
        Ok(read)
    }
}

// 11: the controller challenges, and the reader derives its keys. 12: the reader answers; the controller derives its keys and tests the
// client cryptogram. 13: the controller proves that it has the key. 14: the reader answers the first chain value. For each message the
// number of bytes that the peer reads is told, for each of the six calls whether it was done.
pub(crate) fn shake(line: &mut Line, ends: Ends, numbers: Numbers) -> Result<Ends, Refusal> {
    let rt = line.rt;
    put(rt, "handshake:");
    let Numbers { rnd_a, rnd_b, cuid } = numbers;
    let asked = ends.controller.challenge(rnd_a);
    told(rt, asked.answer)?;
    let rnd_a = line.say(CHALLENGE, rnd_a)?;
    let met = ends.reader.receive_challenge(rnd_a, rnd_b);
    let client = told(rt, met.answer)?;
    let reply = Reply {
        cuid,
        rnd_b,
        client,
    };
    let reply = Reply::from(line.say(CCRYPT, reply.into())?);
    let known = asked
        .session
        .receive_ccrypt(reply.cuid, reply.rnd_b, reply.client);
    told(rt, known.answer)?;
    let server = told(rt, known.session.server_cryptogram())?;
    let server = line.say(SCRYPT, server)?;
    let last = met.session.receive_scrypt(server);
    let first = told(rt, last.answer)?;
    let first = line.say(RMAC_I, first)?;
    let confirmed = known.session.confirm_rmac_i(first);
    told(rt, confirmed.answer)?;
    put(rt, "\n");
    Ok(Ends {
        controller: confirmed.session,
        reader: last.session,
    })
}
