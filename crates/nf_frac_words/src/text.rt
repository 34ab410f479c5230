//! Printing numbers into a buffer of fixed size.
ghost use Rattle.std.specs.Prelude.{◌≡◌, ◌+◌, ◌^◌, ◌<◌, ◌≤◌, ℕ, List, [], ◌++◌, length, take, nat_abs};
ghost use Rattle.nf_frac_words.specs.Digits.{digits_of};
ghost use Rattle.nf_frac_words.specs.Printed.{printed_parts};

use itoa::Buffer;
use std::marker::Model;

const ROOM: usize = 80;

/// The text of one number, at most 80 bytes: two parts of at most 39 digits each, a minus sign and a slash.
#[derive(Drop)]
pub struct TextBuf {
    bytes: [u8; ROOM],
    len: usize,
}

impl Model for TextBuf {
    ghost Value = { List ℕ };

    ghost view = { λ t. take t.len t.bytes };

    ghost invariant = { λ t. t.len ≤ 80 };
}

impl TextBuf {
    /// Returns an empty text.
    pub fn new() -> Self
        ensures { result ≡ [] }
    {
        TextBuf {
            bytes: [0; ROOM],
            len: 0,
        }
    }

    /// Returns the bytes of the text.
    pub fn text(&self) -> &[u8]
        ensures { result.now ≡ self.now }
    {
        &self.bytes[..self.len]
    }

    fn clear(&mut self)
        ensures { self.new ≡ [] }
    {
        self.len = 0;
    }

    fn push(&mut self, piece: &[u8])
        requires { length self.old + length piece.now ≤ 80 }
        ensures { self.new ≡ self.old ++ piece.now }
    {
        let end = self.len + piece.len();
        self.bytes[self.len..end].copy_from_slice(piece);
        self.len = end;
    }
}

impl Default for TextBuf {
    ghost is_default = { λ t. t ≡ [] };

    fn default() -> Self {
        TextBuf::new()
    }
}

/// Replaces the text by the printed form of a fraction: the numerator, followed by `/` and the denominator if the denominator
/// is not 1. Both parts are below 2^127 in magnitude, and are printed as given, not reduced.
pub fn write_parts(num: i128, den: u128, text: &mut TextBuf)
    requires num { nat_abs num < 2 ^ 127 }
    requires den { den < 2 ^ 127 }
    ensures { text.new ≡ printed_parts num den }
{
    let mut digits = Buffer::new();
    text.clear();
    text.push(digits.format(num).as_bytes());
    if den != 1 {
        text.push(b"/");
        text.push(digits.format(den).as_bytes());
    }
}

/// Replaces the text by the count in plain decimal.
pub fn write_count(count: u64, text: &mut TextBuf)
    ensures { text.new ≡ digits_of count }
{
    let mut digits = Buffer::new();
    text.clear();
    text.push(digits.format(count).as_bytes());
}
