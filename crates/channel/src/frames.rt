// A sealed frame from one end to the other.
ghost use Rattle.std.specs.Prelude.{◌≡◌};
ghost use Rattle.channel.specs.Talk.{direction_of, send_of, transfer, transfer_told};

use super::line::on_line;
use packet_head::{Address, Sqn};
use refusal::Refusal;
use secure_seal::{Direction, ToSeal};
use secure_session::{End, Session};
use secure_unseal::PayloadPlace;

// Who sends what, the payload apart.
#[derive(Clone, Copy)]
pub struct ToTransfer {
    pub who: End,
    pub addr: Address,
    pub sqn: Sqn,
    pub encrypt: bool,
    pub code: u8,
}

// What the seal answered at the sender and the unseal at the peer, the cipher calls of each, and both sessions after it.
// Six fields and no pair of `Processed`: docs/PROMISES.md names each by itself.
#[derive(Clone, Copy)]
pub struct Transferred {
    pub sealed: Result<usize, Refusal>,
    pub seal_calls: usize,
    pub opened: Result<PayloadPlace, Refusal>,
    pub open_calls: usize,
    pub from: Session,
    pub to: Session,
}

// Each end names its own direction. No From: this is what a conversation has, and the definition `direction_of` is its promise.
fn direction_of(who: End) -> Direction
    ensures { result ≡ direction_of who }
{
    match who {
        End::Controller => Direction::AcuToPd,
        End::Reader => Direction::PdToAcu,
    }
}

// Seals the payload into `out` at one end, hands over what was sealed and nothing else, and unseals that at the other end.
pub fn transfer(
    from: Session,
    to: Session,
    w: ToTransfer,
    payload: &[u8],
    out: &mut [u8],
    work: &mut [u8],
) -> Transferred
    ensures { transfer_told result out.new work.new ≡ transfer from to (send_of w payload.now out.old work.old) }
{
    let asked = ToSeal {
        addr: w.addr,
        sqn: w.sqn,
        direction: direction_of(w.who),
        encrypt: w.encrypt,
        code: w.code,
    };
    let s = secure_seal::seal(from, asked, payload, out);
    let u = secure_unseal::unseal(to, on_line(out, s.answer), work);
    Transferred {
        sealed: s.answer,
        seal_calls: s.calls,
        opened: u.answer,
        open_calls: u.calls,
        from: s.session,
        to: u.session,
    }
}
