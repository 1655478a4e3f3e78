// A message of the handshake from one end to the other.
ghost use Rattle.std.specs.Prelude.{◌≡◌};
ghost use Rattle.packet_head.specs.Block.{type_of};
ghost use Rattle.packet_view.specs.View.{span, places_told};
ghost use Rattle.channel.specs.Carried.{wire_of, carriage, carriage_told};

use super::line::on_line;
use packet_build::PacketBuilder;
use packet_head::{Address, ControlByte, ScsType, Sqn};
use packet_view::{Places, Span};
use refusal::Refusal;

// How a message is framed, the block's data apart.
#[derive(Clone, Copy)]
pub struct ToCarry {
    pub ty: ScsType,
    pub addr: Address,
    pub sqn: Sqn,
    pub use_crc: bool,
    pub code: u8,
}

// What the building answered, and where the peer finds the message in what was sent.
#[derive(Clone, Copy)]
pub struct CarriedMessage {
    pub sent: Result<usize, Refusal>,
    pub place: Span,
}

// Where the payload stands; after a refusal nowhere, which `places_told` has as 0 and 0.
fn payload_place(read: Result<Places, Refusal>) -> Span
    ensures { span result ≡ (places_told read).payload }
{
    read.map_or(Span { at: 0, len: 0 }, |places| places.payload)
}

// Builds the message into `out` in a frame of the type, with no MAC, hands over what was built and nothing else, and reads that. The
// handshake's types are 11 to 14; for 15 to 18, which need a MAC, the building refuses by 11, and nothing is handed over.
pub fn carry(w: ToCarry, block: &[u8], message: &[u8], out: &mut [u8]) -> CarriedMessage
    ensures { carriage_told result out.new ≡ carriage (type_of w.ty) (wire_of w block.now out.old) message.now }
{
    let builder = PacketBuilder {
        addr: w.addr,
        ctrl: ControlByte::new(w.sqn, w.use_crc, true),
        block: Some(w.ty),
        code: w.code,
    };
    let sent = packet_build::build(builder, block, message, None, out);
    let read = packet_view::places_in(on_line(out, sent));
    CarriedMessage {
        sent,
        place: payload_place(read),
    }
}
