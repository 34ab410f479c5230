// Exits of links by departure, in short form. C3 computes them, and C8 reuses them.
ghost use Rattle.std.specs.Prelude.{◌≡◌, ◌<◌, length, replicate, set, slice_get, Some, None, IfOk, OnOk, OnErr};
ghost use Rattle.nf_check_rules.specs.Exits.{KeepsExits};

use nf_curve::Curve;
use nf_frac::{Halt, Part};
use nf_graph::LinkId;
use nf_net::Network;
use std::alloc::{AllocError, Global};

/// Stored exits by departure: for each link a curve or none. A departure enters a link at the label of the link's tail.
#[derive(Drop)]
pub struct Exits {
    pub kept: Vec<Option<Curve>>,
}

impl Exits {
    /// Returns exits of which none is stored.
    pub fn none(alloc: Global, net: &Network) -> Result<Exits, AllocError>
        ensures { IfOk result
            (λ exits. exits.kept.items ≡ replicate (length net.now.net.links) None) }
    {
        let mut kept = Vec::with_capacity(alloc, net.link_count() as usize)?;
        for _ in 0..net.link_count() {
            kept.push(None)?;
        }
        Ok(Exits { kept })
    }

    // Stores the exits of a link.
    fn put(&mut self, link: LinkId, short: Curve)
        requires { link < length self.old.kept.items }
        ensures { self.new.kept.items ≡ set self.old.kept.items link (Some short) }
    {
        self.kept[link.index()] = Some(short);
    }

    /// Stores the exits of a link in short form. If an operation passes, `Exits` is unchanged; C8 computes the exits again. If an
    /// allocation fails, `Exits` is unchanged.
    pub(crate) fn keep(
        &mut self,
        alloc: Global,
        link: LinkId,
        exit: &Curve,
    ) -> Result<(), AllocError>
        requires { link < length self.old.kept.items }
        ensures keeps { OnOk result (KeepsExits link exit.now.points self.old self.new) }
        ensures as_it_was { OnErr result (self.new ≡ self.old) }
    {
        match Curve::short(alloc, exit, Part::Check) {
            Ok(short) => {
                self.put(link, short);
                Ok(())
            }
            Err(Halt::Passed(_)) => Ok(()),
            Err(Halt::Memory) => Err(AllocError),
        }
    }

    /// Removes and returns the exits of a link, if they are stored.
    pub(crate) fn take(&mut self, link: LinkId) -> Option<Curve>
        requires { link < length self.old.kept.items }
        ensures taken { slice_get self.old.kept.items link ≡ Some result }
        ensures gone { self.new.kept.items ≡ set self.old.kept.items link None }
    {
        self.kept[link.index()].take()
    }
}
