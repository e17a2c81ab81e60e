// Numbers made wider.

ghost use Rattle.std.specs.Prelude.{◌≡◌};

// A field or a link as a place.
pub fn wide(x: u16) -> usize
    ensures { result ≡ x }
{
    usize::from(x)
}

// A field as a measure or a count.
pub fn wider(x: u16) -> u64
    ensures { result ≡ x }
{
    u64::from(x)
}
