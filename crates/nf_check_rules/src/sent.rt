// Three curves of a link, by departure.
ghost use Rattle.std.specs.Prelude.{◌≡◌, IfOk, IfSome, Ok};
ghost use Rattle.nf_rational.specs.Operations.{0ℚ};
ghost use Rattle.nf_rational.specs.Order.{◌≤ℚ◌};
ghost use Rattle.nf_frac_def.specs.declared.Part.TheVariants.{Check};
ghost use Rattle.nf_frac_def.specs.Passing.{passes_Q};
ghost use Rattle.nf_frac_def.specs.Checked.{at_part, seen_at, Gives};
ghost use Rattle.nf_curve_def.specs.Sums.{sides_at as sides_by};
ghost use Rattle.nf_curve.specs.Differences.{difference_of};
ghost use Rattle.nf_check_rules.specs.Sent.{AreSentCurves, ArePlaces, ArePlacesWithin, KeepSlopes, first_time, points_in, sent_on_link, known_on_link, exits_of};
ghost use Rattle.nf_check_rules.specs.declared.sent.Sent.{Sent as SeenSent};

use crate::link_curves::LinkCurves;
use nf_curve::{Curve, Difference, PieceSlope, earlier, place_near, time_at, value_at, value_with};
use nf_frac::{Halt, Part, PassedAt, Q};
use std::alloc::Global;

/// Three curves of a link by departure, in short form. `taken` is the amount that has entered the link, `exits` holds its exits, and
/// `labels` holds the labels of its head.
#[derive(Drop)]
pub(crate) struct Sent {
    pub taken: Curve,
    pub exits: Curve,
    pub labels: Curve,
}

/// The point counts of a departure, for each curve.
#[derive(Clone, Copy)]
pub(crate) struct Places {
    pub taken: usize,
    pub exits: usize,
    pub labels: usize,
}

/// The slopes kept of the three curves.
#[derive(Clone, Copy)]
pub(crate) struct SentSlopes {
    pub taken: Option<PieceSlope>,
    pub exits: Option<PieceSlope>,
    pub labels: Option<PieceSlope>,
}

impl SentSlopes {
    /// Returns no kept slopes.
    pub(crate) fn none() -> SentSlopes
        ensures { (sent : SeenSent) → KeepSlopes sent result }
    {
        SentSlopes {
            taken: None,
            exits: None,
            labels: None,
        }
    }
}

impl Sent {
    // Computes the three curves of a link, for departures up to its `last`.
    #[tactic(auto, unfolding(crate::specs::Sent::sent_list))]
    fn by_exit(alloc: Global, link: &LinkCurves) -> Result<Sent, Halt<Q>>
        ensures list { Gives points_in (λ q. q) result (at_part Check (sent_on_link link.now)) }
        ensures curves { IfOk result AreSentCurves }
    {
        let all_taken = link.by_departure(alloc, link.inflow)?;
        let all_exits = link.by_departure(alloc, link.exit)?;
        let taken = Curve::short(alloc, &all_taken, Part::Check)?;
        let exits = Curve::short(alloc, &all_exits, Part::Check)?;
        let labels = Curve::short(alloc, link.head_label, Part::Check)?;
        Ok(Sent {
            taken,
            exits,
            labels,
        })
    }

    // Computes the three curves from exits by departure in short form.
    #[tactic(auto, unfolding(crate::specs::Sent::known_list))]
    fn by_exits(alloc: Global, link: &LinkCurves, exits: Curve) -> Result<Sent, Halt<Q>>
        ensures list { Gives points_in (λ q. q) result
            (at_part Check (known_on_link link.now exits.points)) }
        ensures curves { IfOk result AreSentCurves }
    {
        // Proof: the exits are a curve.
        exits.recall();
        let all_taken = link.by_departure(alloc, link.inflow)?;
        let taken = Curve::short(alloc, &all_taken, Part::Check)?;
        let labels = Curve::short(alloc, link.head_label, Part::Check)?;
        Ok(Sent {
            taken,
            exits,
            labels,
        })
    }

    /// Computes the three curves of a link, for departures up to its `last`. Reuses the exits by departure in short form, if `kept` holds
    /// them.
    pub(crate) fn along(
        alloc: Global,
        link: &LinkCurves,
        kept: Option<Curve>,
    ) -> Result<Sent, Halt<Q>>
        requires { IfSome kept (λ exits. exits_of link.now ≡ Ok exits.points) }
        ensures list { Gives points_in (λ q. q) result (at_part Check (sent_on_link link.now)) }
        ensures curves { IfOk result AreSentCurves }
    {
        match kept {
            Some(exits) => Sent::by_exits(alloc, link, exits),
            None => Sent::by_exit(alloc, link),
        }
    }

    /// Returns the time of the next point of the three curves after a departure, from its point counts. Returns None if they have no more.
    pub(crate) fn next_time(&self, places: &Places) -> Option<Q>
        ensures { result ≡ first_time self.now places.now }
    {
        let taken = time_at(self.taken.as_points(), places.taken);
        let exits = time_at(self.exits.as_points(), places.exits);
        let labels = time_at(self.labels.as_points(), places.labels);
        earlier(earlier(taken, exits), labels)
    }

    /// Returns the point counts of a departure. The search starts at the counts `from`.
    pub(crate) fn places_near(&self, from: &Places, time: Q) -> Places
        requires { ArePlacesWithin self.now from.now }
        ensures places { ArePlaces self.now time result }
        ensures within { ArePlacesWithin self.now result }
    {
        Places {
            taken: place_near(self.taken.as_points(), from.taken, time),
            exits: place_near(self.exits.as_points(), from.exits, time),
            labels: place_near(self.labels.as_points(), from.labels, time),
        }
    }

    /// Returns the exit and the head label at a departure, from its point counts.
    pub(crate) fn sides_at(&self, places: &Places, time: Q) -> Result<Difference, PassedAt<Q>>
        requires time { 0ℚ ≤ℚ time }
        requires places { ArePlaces self.now time places.now }
        ensures { seen_at difference_of (λ q. q) result
            ≡ at_part Check (sides_by passes_Q self.now.exits.points self.now.labels.points time) }
    {
        let left = value_at(self.exits.as_points(), places.exits, time, Part::Check)?;
        let right = value_at(self.labels.as_points(), places.labels, time, Part::Check)?;
        Ok(Difference { time, left, right })
    }

    /// Returns the exit and the head label at a departure, as `sides_at` does, with the slopes kept from departure to departure.
    pub(crate) fn sides_with(
        &self,
        places: &Places,
        time: Q,
        kept: &mut SentSlopes,
    ) -> Result<Difference, PassedAt<Q>>
        requires time { 0ℚ ≤ℚ time }
        requires places { ArePlaces self.now time places.now }
        requires kept { KeepSlopes self.now kept.old }
        ensures list { seen_at difference_of (λ q. q) result
            ≡ at_part Check (sides_by passes_Q self.now.exits.points self.now.labels.points time) }
        ensures kept { KeepSlopes self.now kept.new }
    {
        let exits = self.exits.as_points();
        let labels = self.labels.as_points();
        let left = value_with(exits, places.exits, time, &mut kept.exits, Part::Check)?;
        let right = value_with(labels, places.labels, time, &mut kept.labels, Part::Check)?;
        Ok(Difference { time, left, right })
    }
}
