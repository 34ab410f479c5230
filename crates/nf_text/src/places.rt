// The first place of a byte. Loops over places, for speed: `iter().position(..)` takes twice the instructions a byte, measured.
ghost use Rattle.std.specs.Prelude.{◌≡◌, ◌==◌, ◌≤◌, ◌+◌, length, position, take, drop, not, true, IsTrue};
ghost use Rattle.std.specs.List.{position_or_len, list_all};
ghost use Rattle.nf_text_def.specs.Words.{is_blank, without_comment};

// The number of bytes that are compared at once.
const ROW: usize = 16;

fn differs(byte: u8, wanted: u8) -> bool
    ensures { result ≡ not (byte == wanted) }
{
    byte != wanted
}

// Returns whether no byte is this one. A loop without an early exit, for speed: LLVM tests 16 bytes at once.
fn is_without(bytes: &[u8], wanted: u8) -> bool
    ensures { result ≡ list_all (λ b. not (b == wanted)) bytes.now }
{
    let mut without = true;
    for byte in bytes {
        without &= differs(*byte, wanted);
    }
    without
}

// Returns whether a whole row of bytes follows this place, and none of them is this one.
fn is_row_without(bytes: &[u8], at: usize, wanted: u8) -> bool
    requires { at ≤ length bytes.now }
    ensures { IsTrue result
        → (at + 16 ≤ length bytes.now)
        × (list_all (λ b. not (b == wanted)) (take 16 (drop at bytes.now)) ≡ true) }
{
    if bytes.len() - at < ROW {
        return false;
    }
    is_without(&bytes[at..at + ROW], wanted)
}

// Returns how many bytes stand before the first of this one: first by rows, then byte by byte.
fn far_place_of(bytes: &[u8], wanted: u8) -> usize
    ensures place { result ≡ position_or_len (λ b. b == wanted) bytes.now }
    ensures within { result ≤ length bytes.now }
{
    let mut at = 0;
    while is_row_without(bytes, at, wanted) {
        at += ROW;
    }
    at + place_of(&bytes[at..], wanted)
}

// Returns how many bytes stand before the first of this one.
fn place_of(bytes: &[u8], wanted: u8) -> usize
    ensures place { result ≡ position_or_len (λ b. b == wanted) bytes.now }
    ensures within { result ≤ length bytes.now }
{
    for (place, byte) in bytes.iter().enumerate() {
        if *byte == wanted {
            return place;
        }
    }
    bytes.len()
}

// Returns whether a byte is a space or a tab. Most bytes are above both, so one comparison tells.
fn is_gap(byte: u8) -> bool
    ensures { result ≡ is_blank byte }
{
    if byte > b' ' {
        return false;
    }
    byte == b' ' || byte == b'\t'
}

/// Returns how many bytes stand before the first blank.
pub fn word_len(line: &[u8]) -> usize
    ensures place { result ≡ position_or_len is_blank line.now }
    ensures within { result ≤ length line.now }
{
    for (place, byte) in line.iter().enumerate() {
        if is_gap(*byte) {
            return place;
        }
    }
    line.len()
}

/// Returns how many bytes stand before the comment.
pub fn comment_start(line: &[u8]) -> usize
    ensures place { result ≡ position_or_len (λ b. b == 35) line.now }
    ensures within { result ≤ length line.now }
{
    far_place_of(line, b'#')
}

/// Returns how many bytes stand before the first LF.
pub fn line_len(text: &[u8]) -> usize
    ensures place { result ≡ position_or_len (λ b. b == 10) text.now }
    ensures within { result ≤ length text.now }
{
    far_place_of(text, b'\n')
}
