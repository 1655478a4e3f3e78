// The two paddings, into a buffer that the caller lends, and the one that is taken off again.
ghost use Rattle.std.specs.Prelude.{◌≡◌, ◌*◌, ◌/◌, ◌≤◌, ◌<◌, length, drop, OnOk, IfErr};
ghost use Rattle.laws.specs.Buffer.{sized, written};
ghost use Rattle.refusal.specs.declared.Refusal.{Refusal};
ghost use Rattle.refusal.specs.Reading.{length_answer};
ghost use Rattle.secure_cipher.specs.Pad.{pad_mac, pad_data, unpad, fitting};

use refusal::Refusal;

pub(crate) fn room_for(out: &[u8], need: usize) -> Result<(), Refusal>
    ensures ok { OnOk result (need ≤ length out.now) }
    ensures err { IfErr result (λ e. (length out.now < need) × (e ≡ Refusal.NoRoom need (length out.now))) }
{
    let have = out.len();
    if have < need {
        return Err(Refusal::NoRoom { need, have });
    }
    Ok(())
}

// For the MAC: nothing is added at a multiple of 16.
pub fn pad_mac(data: &[u8], out: &mut [u8]) -> Result<usize, Refusal>
    ensures result_value { length_answer result ≡ sized (fitting (pad_mac «data».now) (length out.old)) }
    ensures out_after { out.new ≡ written out.old (fitting (pad_mac «data».now) (length out.old)) }
{
    let n = data.len();
    if n % 16 != 0 {
        return pad_data(data, out);
    }
    room_for(out, n)?;
    slices::copy(out, 0, data);
    Ok(n)
}

// For encrypted data: always at least the 80.
pub fn pad_data(data: &[u8], out: &mut [u8]) -> Result<usize, Refusal>
    ensures result_value { length_answer result ≡ sized (fitting (pad_data «data».now) (length out.old)) }
    ensures out_after { out.new ≡ written out.old (fitting (pad_data «data».now) (length out.old)) }
{
    let n = data.len();
    let need = n / 16 * 16 + 16;
    room_for(out, need)?;
    slices::copy(out, 0, data);
    out[n] = 0x80;
    slices::zero(out, n + 1, need - (n + 1));
    Ok(need)
}

// How many bytes stand before the padding.
pub fn unpad_data(buf: &[u8]) -> Result<usize, Refusal>
    ensures { length_answer result ≡ unpad buf.now }
{
    match buf.iter().rposition(|b| *b != 0) {
        Some(last) if buf[last] == 0x80 => Ok(last),
        _ => Err(Refusal::BadPadding),
    }
}

// The last block of s padded as data: what is left after the whole blocks, 80, zeros.
pub(crate) fn last_data_block(s: &[u8]) -> [u8; 16]
    ensures { result ≡ drop (length s.now / 16 * 16) (pad_data s.now) }
{
    let (_, rest) = s.as_chunks::<16>();
    let mut out = [0u8; 16];
    slices::copy(&mut out, 0, rest);
    out[rest.len()] = 0x80;
    out
}
