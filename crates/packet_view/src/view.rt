// The view. Its functions take it apart and call those on the slice and the numbers.
ghost use Rattle.std.specs.Prelude.{◌≡◌, Ok};
ghost use Rattle.slices.specs.Stretch.{stretch_of};
ghost use Rattle.packet_parse.specs.Frame.{parse_of};
ghost use Rattle.slices.specs.Place.{part_seen};
ghost use Rattle.packet_view.specs.View.{places_told, places_of, viewed, as_accepted, block_data_seen, payload_seen, frame_mac_seen};

use super::parts::{Places, Span, places_in};
use packet_head::{Address, ControlByte, Sqn, Trailer};
use refusal::Refusal;

// A frame, and what reading it told.
#[derive(Clone, Copy)]
pub struct PacketView<'a> {
    pub frame: &'a [u8],
    pub read: Result<Places, Refusal>,
}

impl<'a> PacketView<'a> {
    // The view of the frame at the start of the slice.
    pub fn parse(frame: &'a [u8]) -> PacketView<'a>
        ensures { viewed result ≡ (frame.entry, places_of (parse_of frame.now)) }
    {
        PacketView {
            frame,
            read: places_in(frame),
        }
    }

    // What it tells of the frame: the places of an accepted one, and after a refusal zero or nothing for each (docs/DECISIONS.md).
    pub fn told(self) -> Places
        ensures { places_told (Ok result) ≡ as_accepted (viewed self.entry).1 }
    {
        match self.read {
            Ok(places) => places,
            Err(_) => Places {
                addr: Address::from_raw(0),
                ctrl: ControlByte::new(Sqn::ZERO, false, false),
                block: None,
                code: 0,
                trailer: Trailer::Checksum(0),
                len: 0,
                block_data: Span::NOWHERE,
                payload: Span::NOWHERE,
                mac: Span::NOWHERE,
            },
        }
    }

    pub fn block_data(self) -> &'a [u8]
        ensures { stretch_of result ≡ part_seen self.entry.frame (viewed self.entry).1.block.at (viewed self.entry).1.block.len }
    {
        self.told().block_data.of(self.frame)
    }

    pub fn payload(self) -> &'a [u8]
        ensures { stretch_of result ≡ part_seen self.entry.frame (viewed self.entry).1.payload.at (viewed self.entry).1.payload.len }
    {
        self.told().payload.of(self.frame)
    }

    pub fn mac(self) -> &'a [u8]
        ensures { stretch_of result ≡ part_seen self.entry.frame (viewed self.entry).1.mac.at (viewed self.entry).1.mac.len }
    {
        self.told().mac.of(self.frame)
    }
}

// The Rust's three calls on a frame, as the three above are on a view: one expression each, and docs/PROMISES.md promises all six.
pub fn block_data_in(frame: &[u8]) -> &[u8]
    ensures { stretch_of result ≡ block_data_seen frame.entry }
{
    PacketView::parse(frame).block_data()
}

pub fn payload_in(frame: &[u8]) -> &[u8]
    ensures { stretch_of result ≡ payload_seen frame.entry }
{
    PacketView::parse(frame).payload()
}

pub fn mac_in(frame: &[u8]) -> &[u8]
    ensures { stretch_of result ≡ frame_mac_seen frame.entry }
{
    PacketView::parse(frame).mac()
}
