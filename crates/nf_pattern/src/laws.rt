// Theorems on listings, as contracts of functions without effect.
ghost use Rattle.nf_pattern.specs.Front.{HaveListings, GivenAreFronts};

/// Theorem: every question has a listing, which holds each listed pattern once, in order.
pub fn questions_have_listings()
    ensures { HaveListings }
{}

/// Theorem: the patterns that `Patterns::next` has returned are a prefix of the listing. They are the whole listing once `next` returns
/// `None`.
pub fn given_are_fronts()
    ensures { GivenAreFronts }
{}
