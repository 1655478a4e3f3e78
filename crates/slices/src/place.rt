// Places in slices. A place is a start and a length, whose sum may pass 64 bits. They are two parameters, as C hands them in
// (malstrink_payload_test) and as docs/PROMISES.md promises these calls.
ghost use Rattle.std.specs.Prelude.{◌≡◌, ◌+◌};
ghost use Rattle.slices.specs.Stretch.{stretch_of};
ghost use Rattle.slices.specs.Place.{runs_past, saturated, part_seen};

// Whether a place runs past the end of a slice of `size` bytes.
pub fn outside(size: usize, start: usize, len: usize) -> bool
    ensures { result ≡ runs_past size start len }
{
    size.checked_sub(start).is_none_or(|room| room < len)
}

// The end of a place, as 64 bits carry it.
pub fn end_of(start: usize, len: usize) -> usize
    ensures { result ≡ saturated (start + len) }
{
    start.saturating_add(len)
}

// The len bytes of s from start on, or its empty first part where they run past its end. Not by `get`, which promises the bytes and
// not where they lie: `part_seen` says both.
#[tactic(auto, unfolding(crate::specs::Place::part_of, crate::specs::Place::part_start))]
pub fn part(s: &[u8], start: usize, len: usize) -> &[u8]
    ensures { stretch_of result ≡ part_seen s.entry start len }
{
    if outside(s.len(), start, len) {
        return &s[..0];
    }
    &s[start..start + len]
}
