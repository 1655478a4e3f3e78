// What a frame carries from a reader.
ghost use Rattle.std.specs.Prelude.{◌≡◌};
ghost use Rattle.packet_parse.specs.Frame.{fields};
ghost use Rattle.reply_listing.specs.InClear.{reply_in, reply_told};

use body_read::Body;
use packet_parse::ParsedPacket;
use refusal::Refusal;

#[derive(Clone, Copy)]
pub(crate) enum Reply {
    NoReply,
    Sealed,
    Clear(Result<Body, Refusal>),
}

// The reply in the frame p with this payload. One under a MAC is not looked at: what it says is not known to be what the reader sent.
#[tactic(auto, unfolding(crate::specs::InClear::reply_in))]
pub(crate) fn reply_in(p: ParsedPacket, payload: &[u8]) -> Reply
    ensures { reply_told result payload.now ≡ reply_in (record { fields = fields p; payload = payload.now }) }
{
    if !p.addr.is_reply() {
        return Reply::NoReply;
    }
    match p.mac {
        None => Reply::Clear(body_read::read(p.code, payload)),
        Some(_) => Reply::Sealed,
    }
}
