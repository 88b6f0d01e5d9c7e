// A 64-bit number as eight bytes of a slice, the lowest byte first.
ghost use Rattle.std.specs.Prelude.{◌≡◌, ◌+◌, ◌*◌, ◌^◌, ◌<◌, ◌≤◌, ◌++◌, length, take, drop};
ghost use Rattle.number.specs.Bytes.{bytes_of, number_of, room, word_at, put_at};

// Whether eight bytes stand from `at` on among `count`. The sum at + 8 is not made, since it could overflow.
fn has_room(count: usize, at: usize) -> bool
    ensures { result ≡ room count at }
{
    8 <= count && at <= count - 8
}

// The number of the eight bytes from `at` on.
fn read(s: &[u8], at: usize) -> u64
    requires { at + 8 ≤ length s.now }
    ensures { result ≡ number_of (take 8 (drop at s.now)) }
{
    let mut bytes = [0; 8];
    bytes.copy_from_slice(&s[at..at + 8]);
    u64::from_le_bytes(bytes)
}

// The eight bytes of v stored from `at` on.
fn write(s: &mut [u8], at: usize, v: u64)
    requires { at + 8 ≤ length s.old }
    ensures { s.new ≡ take at s.old ++ bytes_of 8 v ++ drop (at + 8) s.old }
{
    s[at..at + 8].copy_from_slice(&v.to_le_bytes());
}

// The number from `at` on, or None where fewer than eight bytes stand there.
pub fn get_word(s: &[u8], at: usize) -> Option<u64>
    ensures { result ≡ word_at s.now at }
{
    if has_room(s.len(), at) {
        Some(read(s, at))
    } else {
        None
    }
}

// Puts v from `at` on and says true; where eight bytes have no room there it says false and leaves all as it was.
pub fn put_word(s: &mut [u8], at: usize, v: u64) -> bool
    ensures told { result ≡ room (length s.old) at }
    ensures put { s.new ≡ put_at s.old at v }
{
    if has_room(s.len(), at) {
        write(s, at, v);
        true
    } else {
        false
    }
}
