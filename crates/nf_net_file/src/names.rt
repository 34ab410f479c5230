// Tables of names.
ghost use Rattle.std.specs.Prelude.{◌≡◌, ◌≤◌, [], true, false, length, position, is_some, IsSome, OnOk, OnErr};
ghost use Rattle.std.specs.Str.{bytes_eq};
ghost use Rattle.nf_net_def.specs.Names.{has_name, place_of, with_name};

use crate::name::Name;
use indexmap::IndexSet;
use std::alloc::{AllocError, Global};
use std::marker::Model;

/// Names, each once, in the order in which they were added.
#[derive(Drop)]
pub struct Names {
    table: IndexSet<Name>,
}

impl Model for Names {
    ghost use Rattle.std.specs.Prelude.{ℕ, List};

    ghost Value = { List (List ℕ) };

    ghost view = { λ n. n.table.keys };
}

impl Names {
    /// Returns the empty table.
    pub fn new(alloc: Global) -> Names
        ensures { result ≡ [] }
    {
        Names {
            table: IndexSet::new(alloc),
        }
    }

    /// Returns the number of names.
    pub fn len(&self) -> usize
        ensures { result ≡ length self.now }
    {
        self.table.len()
    }

    /// Returns the names in their order.
    pub fn as_slice(&self) -> &[Name]
        ensures { result.now ≡ self.now }
    {
        self.table.as_slice()
    }

    // Returns the place of a name, if the table has it.
    fn place(&self, name: &Name) -> Option<usize>
        ensures place { result ≡ position (bytes_eq name.now) self.now }
        ensures there { is_some result ≡ has_name self.now name.now }
    {
        self.table.get_index_of(name)
    }

    /// Returns the place of a name, or the number of names if the table does not have it.
    #[tactic(auto, using(nf_text::proofs::Positions::unwrap_or_position, nf_text::proofs::Positions::position_or_len_within))]
    pub fn place_or_len(&self, name: &Name) -> usize
        ensures place { result ≡ place_of self.now name.now }
        ensures within { result ≤ length self.now }
    {
        self.place(name).unwrap_or(self.len())
    }

    /// Returns whether the table has a name.
    pub fn has(&self, name: &Name) -> bool
        ensures { result ≡ has_name self.now name.now }
    {
        self.table.contains(name)
    }

    /// Appends a name, if the table does not have it. If an allocation fails, the table is unchanged.
    pub fn put(&mut self, name: Name) -> Result<(), AllocError>
        ensures ok { OnOk result (self.new ≡ with_name self.old name) }
        ensures err { OnErr result (self.new ≡ self.old) }
    {
        self.table.insert_full(name)?;
        Ok(())
    }
}
