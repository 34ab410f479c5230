// Names of nodes and links.
ghost use Rattle.std.specs.Prelude.{◌≡◌, true, false, length, SomeIff, take};
ghost use Rattle.std.specs.List.{list_all};
ghost use Rattle.std.specs.Str.{bytes_eq};
ghost use Rattle.std.specs.Hash as fed;
ghost use Rattle.nf_net_def.specs.Names as names;
ghost use Rattle.nf_net_def.specs.Names.{is_name_byte};
ghost use Rattle.nf_net_file.specs.Names.{IsKeptName, name_equivalence, name_partial_equivalence, same_name_hash};

use std::hash::{Hash, Hasher};
use std::marker::Model;

/// The most bytes of a name.
pub const LONGEST_NAME: usize = 24;

/// A name: 1 to 24 letters, digits, `_`, `-` and `.`. It takes no memory beside its own.
#[derive(Drop)]
pub struct Name {
    bytes: [u8; LONGEST_NAME],
    len: usize,
}

impl Model for Name {
    ghost use Rattle.std.specs.Prelude.{ℕ, List, take};
    ghost use Rattle.nf_net_file.specs.Names.{IsKeptName};

    ghost Value = { List ℕ };

    ghost view = { λ n. take n.len n.bytes };

    ghost invariant = { λ n. IsKeptName n.bytes n.len };
}

fn is_byte_of_name(byte: u8) -> bool
    ensures { result ≡ is_name_byte byte }
{
    byte.is_ascii_alphanumeric() || byte == b'_' || byte == b'-' || byte == b'.'
}

fn are_bytes_of_name(word: &[u8]) -> bool
    ensures { result ≡ list_all is_name_byte word.now }
{
    word.iter().all(|byte| is_byte_of_name(*byte))
}

/// Returns whether a word is a name: 1 to 24 letters, digits, `_`, `-` and `.`.
pub fn is_name(word: &[u8]) -> bool
    ensures { result ≡ names.is_name word.now }
{
    !word.is_empty() && word.len() <= LONGEST_NAME && are_bytes_of_name(word)
}

impl Name {
    /// Returns the name that a word is, if it is one.
    #[tactic(auto, using(crate::proofs::NameText::name_fits))]
    pub fn read(word: &[u8]) -> Option<Name>
        ensures { SomeIff result (names.is_name word.now ≡ true) word.now }
    {
        if !is_name(word) {
            return None;
        }
        let len = word.len();
        let mut bytes = [0; LONGEST_NAME];
        bytes[..len].copy_from_slice(word);
        Some(Name { bytes, len })
    }

    /// Returns a copy of the name.
    pub fn copy(&self) -> Name
        ensures { result ≡ self.now }
    {
        Name {
            bytes: self.bytes,
            len: self.len,
        }
    }

    /// Returns the bytes of the name.
    pub fn bytes(&self) -> &[u8]
        ensures value { result.now ≡ self.now }
        ensures name { names.is_name result.now ≡ true }
    {
        &self.bytes[..self.len]
    }

    /// Returns the text of the name.
    pub fn text(&self) -> &str
        ensures { result.now ≡ self.now }
    {
        std::str::from_utf8(self.bytes()).unwrap()
    }
}

impl PartialEq for Name {
    ghost eq = { bytes_eq };

    ghost laws = { name_partial_equivalence };

    fn eq(&self, other: &Name) -> bool {
        self.bytes() == other.bytes()
    }
}

impl Eq for Name {
    ghost laws = { name_equivalence };
}

impl Hash for Name {
    ghost hash_input = { fed.slice fed.u8 };

    ghost respects_eq = { same_name_hash };

    fn hash<H: Hasher>(&self, state: &mut H) {
        self.bytes().hash(state);
    }
}
