// What a frame's view tells and where its parts stand, by value.
ghost use Rattle.std.specs.Prelude.{◌≡◌, Ok};
ghost use Rattle.slices.specs.Stretch.{stretch_of};
ghost use Rattle.slices.specs.Place.{part_seen};
ghost use Rattle.packet_parse.specs.Frame.{type_in, parse_of, fields, block_place, mac_place};
ghost use Rattle.laws.specs.Answer.{Answer.given};
ghost use Rattle.packet_view.specs.View.{kind_of, places_told, places_of, span, block_in, mac_in};

use packet_head::{Address, ControlByte, MAC_LEN, ScsType, Trailer};
use packet_parse::{BlockPart, ParsedPacket, parse};
use refusal::Refusal;

// A part of a frame: its place, counted from the frame's first byte, and its length, which is 0 where the part is not there: the
// paper asks for empty parts (docs/DECISIONS.md).
#[derive(Clone, Copy, PartialEq, Eq)]
pub struct Span {
    pub at: usize,
    pub len: usize,
}

impl Span {
    pub(crate) const NOWHERE: Self = Self { at: 0, len: 0 };

    // The bytes there, or the slice's empty first part where they run past its end.
    pub fn of(self, bytes: &[u8]) -> &[u8]
        ensures { stretch_of result ≡ part_seen bytes.entry self.at self.len }
    {
        slices::part(bytes, self.at, self.len)
    }
}

#[derive(Clone, Copy)]
pub struct Places {
    pub addr: Address,
    pub ctrl: ControlByte,
    pub block: Option<ScsType>,
    pub code: u8,
    pub trailer: Trailer,
    pub len: usize,
    pub block_data: Span,
    pub payload: Span,
    pub mac: Span,
}

fn block_span(block: Option<BlockPart>) -> Span
    ensures { span result ≡ block_in (block_place block) }
{
    block.map_or(
        Span::NOWHERE,
        |b| Span {
            at: b.start,
            len: b.len,
        },
    )
}

fn mac_span(mac: Option<usize>) -> Span
    ensures { span result ≡ mac_in (mac_place mac) }
{
    mac.map_or(Span::NOWHERE, |at| Span { at, len: MAC_LEN })
}

fn block_kind(block: Option<BlockPart>) -> Option<ScsType>
    ensures { kind_of result ≡ type_in (block_place block) }
{
    block.map(|b| b.ty)
}

impl From<ParsedPacket> for Places {
    ghost from_gives = { λ p r. places_told (Ok r) ≡ places_of (given (fields p)) };

    #[tactic(auto, unfolding(crate::specs::View::places_of))]
    fn from(p: ParsedPacket) -> Self {
        Places {
            addr: p.addr,
            ctrl: p.ctrl,
            block: block_kind(p.block),
            code: p.code,
            trailer: p.trailer,
            len: p.len,
            block_data: block_span(p.block),
            payload: Span {
                at: p.data_start,
                len: p.data_len,
            },
            mac: mac_span(p.mac),
        }
    }
}

// Where the parts of the frame at the start of buf stand.
#[tactic(auto, unfolding(crate::specs::View::places_of))]
pub fn places_in(buf: &[u8]) -> Result<Places, Refusal>
    ensures { places_told result ≡ places_of (parse_of buf.now) }
{
    Ok(Places::from(parse(buf)?))
}
