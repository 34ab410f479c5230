// The amounts one route has sent into its links.
ghost use Rattle.std.specs.Prelude.{◌≡◌, ◌<◌, [], ◌∷◌, ◌++◌, length, map, OnOk, IsSome, IfSome};
ghost use Rattle.nf_frac_def.specs.Passing.{passes_Q};
ghost use Rattle.nf_routes_def.specs.RoutesList.{last_entry, but_last};
ghost use Rattle.nf_routes_links.specs.Keeping.{last_alone};

use nf_curve::Curve;
use std::alloc::{AllocError, Global};
use std::marker::Model;

/// Amounts that a route has sent, by time. Each loaded link of the route has one, in route order. If all links of the route are loaded, the
/// last curve is the amount that has arrived.
#[derive(Drop)]
pub struct Stages {
    curves: Vec<Curve>,
}

impl Model for Stages {
    ghost use Rattle.std.specs.Prelude.{List, map};
    ghost use Rattle.std.specs.Coded.{coded_list};
    ghost use Rattle.nf_model.specs.Curve.{Point};
    ghost use Rattle.nf_model.specs.Codes.{coded_points};

    ghost Value = { List (List Point) };

    ghost coded = { coded_list coded_points };

    ghost view = { λ s. map (λ c. c.points) s.curves.items };
}

impl Stages {
    /// Returns no stages.
    pub fn new(alloc: Global) -> Stages
        ensures { result ≡ [] }
    {
        Stages {
            curves: Vec::new(alloc),
        }
    }

    /// Replaces the stages with the amount of the first link.
    pub fn begin(&mut self, first: Curve) -> Result<(), AllocError>
        ensures { OnOk result (self.new ≡ first.points ∷ []) }
    {
        self.curves.clear();
        self.curves.push(first)?;
        Ok(())
    }

    /// Appends an amount.
    pub fn push(&mut self, next: Curve) -> Result<(), AllocError>
        ensures { OnOk result (self.new ≡ self.old ++ next.points ∷ []) }
    {
        self.curves.push(next)?;
        Ok(())
    }

    /// Returns the last amount.
    pub fn last(&self) -> &Curve
        requires { 0 < length self.now }
        ensures { result.now.points ≡ last_entry self.now }
    {
        &self.curves[self.curves.len() - 1]
    }

    /// Drops all amounts but the last.
    pub fn keep_last(&mut self) -> Result<(), AllocError>
        ensures { OnOk result (self.new ≡ last_alone self.old) }
    {
        let Some(last) = self.curves.pop() else {
            return Ok(());
        };
        self.begin(last)
    }

    /// Returns all amounts but the last, and the last. Never returns `None`: at least one amount is a precondition.
    pub fn end(self) -> Option<(Vec<Curve>, Curve)>
        requires { 0 < length self }
        ensures some { IsSome result }
        ensures sent { IfSome result
            (λ parts. map (λ c. c.points) parts.0.items ≡ but_last passes_Q self) }
        ensures arrival { IfSome result (λ parts. parts.1.points ≡ last_entry self) }
    {
        let mut curves = self.curves;
        match curves.pop() {
            Some(arrival) => Some((curves, arrival)),
            None => None,
        }
    }
}
