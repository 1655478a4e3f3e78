// What a call that wrote a frame into a buffer puts on the line.
ghost use Rattle.std.specs.Prelude.{◌≡◌};
ghost use Rattle.slices.specs.Stretch.{stretch_of};
ghost use Rattle.refusal.specs.Reading.{length_answer};
ghost use Rattle.channel.specs.Carried.{line_seen};

use refusal::Refusal;

// As many bytes of the buffer as the call answered, all of them where it has fewer, and none after a refusal.
pub fn on_line(out: &[u8], answer: Result<usize, Refusal>) -> &[u8]
    ensures { stretch_of result ≡ line_seen (length_answer answer) out.entry }
{
    match answer {
        Ok(n) => { if n <= out.len() { &out[..n] } else { out } }
        Err(_) => &out[..0],
    }
}
