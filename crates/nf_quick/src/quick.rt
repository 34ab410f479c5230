// A quickest flow as a value.
use nf_frac::Q;
use nf_quick_walks::Rated;
use std::marker::Model;

/// A quickest flow. The walks are fed at their rates from time 0 until `time` minus their transit sums. `cut` has the time of each node in
/// a cut over time. `value`, an amount, is the value of that cut, which equals the delivered amount.
#[derive(Drop)]
pub struct Quick {
    pub time: Q,
    pub walks: Vec<Rated>,
    pub cut: Vec<Q>,
    pub value: Q,
}

impl Model for Quick {
    ghost use Rattle.nf_quick_def.specs.Quick.{Quick as SeenQuick};
    ghost use Rattle.nf_quick.specs.Codes.{coded_quick};

    ghost Value = { SeenQuick };

    ghost coded = { coded_quick };

    ghost view = { λ q. record { time = q.time; walks = q.walks.items; cut = q.cut.items; value = q.value } };
}
