// Names of fetched files.
ghost use Rattle.std.specs.Prelude.{◌≡◌, [], ◌∷◌, ◌++◌, OnOk, OnErr};
ghost use Rattle.nf_edge.specs.Names.{texts};

use std::alloc::{AllocError, Global};

/// Appends one name.
pub(crate) fn note(asked: &mut Vec<String>, alloc: Global, name: &str) -> Result<(), AllocError>
    ensures ok { OnOk result (texts asked.new.items ≡ texts asked.old.items ++ name.now ∷ []) }
    ensures err { OnErr result (texts asked.new.items ≡ texts asked.old.items) }
{
    asked.push(name.to_owned(alloc)?)?;
    Ok(())
}
