// Comparing what must match.
ghost use Rattle.std.specs.Prelude.{◌≡◌};
ghost use Rattle.laws.specs.Bytes.{eql};

// Whether two slices are equal. Every byte is looked at: where they differ does not show in the time.
pub fn same(a: &[u8], b: &[u8]) -> bool
    ensures { result ≡ eql a.now b.now }
{
    a.len() == b.len()
        && a.iter()
            .zip(b)
            .fold(0u8, |differences, (x, y)| differences | (x ^ y))
            == 0
}
