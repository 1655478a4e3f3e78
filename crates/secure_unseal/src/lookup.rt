// The payload, looked up where an opening said it stands.
ghost use Rattle.std.specs.Prelude.{◌≡◌};
ghost use Rattle.refusal.specs.Reading.{outcome_answer};
ghost use Rattle.slices.specs.Stretch.{stretch_of};
ghost use Rattle.secure_unseal.specs.Lookup.{lookup_seen, place_test, shown_test};

use super::frame::PayloadPlace;
use refusal::Refusal;
use slices::{end_of, outside, part};

// The place's part of the work buffer or of the frame; outside, the frame's empty first part.
pub fn payload<'a>(frame: &'a [u8], work: &'a [u8], place: PayloadPlace) -> &'a [u8]
    ensures { stretch_of result ≡ lookup_seen place.in_work place.start place.len frame.entry work.entry }
{
    if place.in_work {
        if outside(work.len(), place.start, place.len) {
            return &frame[..0];
        }
        return part(work, place.start, place.len);
    }
    part(frame, place.start, place.len)
}

#[tactic(auto, unfolding(crate::specs::Lookup::place_test, laws::specs::Answer::refuse_if))]
fn test(size: usize, start: usize, len: usize) -> Result<(), Refusal>
    ensures { outcome_answer result tt ≡ place_test size start len }
{
    if outside(size, start, len) {
        return Err(Refusal::Truncated {
            have: size,
            need: end_of(start, len),
        });
    }
    Ok(())
}

// Whether `payload` shows the place, or shows nothing since it runs outside.
#[tactic(auto, unfolding(crate::specs::Lookup::shown_test))]
pub fn payload_test(frame: &[u8], work: &[u8], place: PayloadPlace) -> Result<(), Refusal>
    ensures { outcome_answer result tt ≡ shown_test place.in_work place.start place.len frame.now work.now }
{
    let size = if place.in_work {
        work.len()
    } else {
        frame.len()
    };
    test(size, place.start, place.len)
}
