// Numbers in bytes, most significant byte first. No entry points: each that reads or writes asks that the bytes lie inside.
ghost use Rattle.std.specs.Prelude.{◌≡◌, ◌+◌, ◌<◌, length};
ghost use Rattle.bundle_storage.specs.Bytes.{Bytes, two_at, four_at, two, four, put};

// That the numbers of a slice are bytes, for one who has the slice in a struct: of a slice that is lent by itself the check knows it, of one that
// is read from a field it does not. Nothing is done when it runs.
pub fn known_as_bytes(bytes: &[u8])
    ensures { Bytes bytes.now }
{}

#[tactic(auto, unfolding(crate::specs::Bytes::two_at))]
pub fn two_at(bytes: &[u8], at: usize) -> usize
    requires { at + 1 < length bytes.now }
    ensures { (result ≡ two_at bytes.now at) × (result < 65536) }
{
    usize::from(u16::from_be_bytes([bytes[at], bytes[at + 1]]))
}

#[tactic(auto, unfolding(crate::specs::Bytes::four_at, crate::specs::Bytes::two_at))]
pub fn four_at(bytes: &[u8], at: usize) -> usize
    requires { at + 3 < length bytes.now }
    ensures { (result ≡ four_at bytes.now at) × (result < 4294967296) }
{
    u32::from_be_bytes([bytes[at], bytes[at + 1], bytes[at + 2], bytes[at + 3]]) as usize
}

#[tactic(auto, unfolding(crate::specs::Bytes::put, crate::specs::Bytes::two))]
pub fn put_two(bytes: &mut [u8], at: usize, number: usize)
    requires { (at + 1 < length bytes.old) × (number < 65536) }
    ensures { bytes.new ≡ put (two number) at bytes.old }
{
    bytes[at..at + 2].copy_from_slice(&(number as u16).to_be_bytes());
}

#[tactic(auto, unfolding(crate::specs::Bytes::put, crate::specs::Bytes::four, crate::specs::Bytes::two))]
pub fn put_four(bytes: &mut [u8], at: usize, number: usize)
    requires { (at + 3 < length bytes.old) × (number < 4294967296) }
    ensures { bytes.new ≡ put (four number) at bytes.old }
{
    bytes[at..at + 4].copy_from_slice(&(number as u32).to_be_bytes());
}
