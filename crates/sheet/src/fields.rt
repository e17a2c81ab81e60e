// Fields of two and of four bytes, "low byte first", and bytes as they come. No generic over the two sizes: each is one line of the library,
// whose conversions are methods of each number's own type.

ghost use Rattle.std.specs.Prelude.{◌≡◌, ◌+◌, ◌^◌, ◌≤◌, ◌<◌, length};
ghost use Rattle.std.proofs.lemmas.List.Edits.{sets};
ghost use Rattle.dstree.specs.Sheet.{part, number_in, bytes_of};

// The number that two bytes from a place on hold.
pub fn two_bytes(bytes: &[u8], place: usize) -> u64
    requires { place + 2 ≤ length bytes.now }
    ensures { (result ≡ number_in (part place 2 bytes.now)) × (result < 256 ^ 2) }
{
    u64::from(u16::from_le_bytes([bytes[place], bytes[place + 1]]))
}

// The number that four bytes from a place on hold.
pub fn four_bytes(bytes: &[u8], place: usize) -> u64
    requires { place + 4 ≤ length bytes.now }
    ensures { (result ≡ number_in (part place 4 bytes.now)) × (result < 256 ^ 4) }
{
    u64::from(u32::from_le_bytes([
        bytes[place],
        bytes[place + 1],
        bytes[place + 2],
        bytes[place + 3],
    ]))
}

// Two bytes from a place on become a number's.
pub fn put_two(bytes: &mut [u8], place: usize, v: u16)
    requires { place + 2 ≤ length bytes.old }
    ensures { bytes.new ≡ sets bytes.old place (bytes_of 2 v) }
{
    put_bytes(bytes, place, &v.to_le_bytes());
}

// Four bytes from a place on become a number's.
pub fn put_four(bytes: &mut [u8], place: usize, v: u64)
    requires { place + 4 ≤ length bytes.old }
    ensures { bytes.new ≡ sets bytes.old place (bytes_of 4 v) }
{
    put_bytes(bytes, place, &v.to_le_bytes()[..4]);
}

// The bytes from a place on become these.
pub fn put_bytes(bytes: &mut [u8], place: usize, new: &[u8])
    requires { place + length new.now ≤ length bytes.old }
    ensures { bytes.new ≡ sets bytes.old place new.now }
{
    bytes[place..place + new.len()].copy_from_slice(new);
}
