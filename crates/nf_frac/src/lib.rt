//! Checked fractions: exact rational numbers in lowest terms whose numerators and denominators have a bounded number of bits.
//! The trait `Scalar` has the operations that amounts, times and rates need. No function allocates memory, and none rounds: an
//! operation returns an error if its result would exceed the bound.
#![tactic(auto)]

mod arithmetic;
mod compared;
mod fraction;
mod lowest;
mod order;
mod scalar;
mod short;
mod short_arithmetic;
mod small;
mod small_arithmetic;
mod small_order;
mod small_scalar;
mod whole;
mod words;

pub use fraction::{Frac, Q};
pub use nf_frac_def::{Halt, Op, Part, Passed, PassedAt};
pub use nf_frac_words::{NumberFault, TextBuf};
pub use scalar::Scalar;
pub use small::Small;

/// Evaluates to the value of an operation. If the operation exceeds the bound, it returns from the function instead: with the part
/// of the work, the operation and its operands, converted by `From` into the function's error.
#[macro_export]
macro_rules! at {
    ($part:expr, $operation:expr) => {
        match $operation {
            Ok(value) => value,
            Err(passed) => {
                return Err(From::from($crate::PassedAt {
                    part: $part,
                    op: passed.op,
                    left: passed.left,
                    right: passed.right,
                }));
            }
        }
    };
}
