//! Laws of inlining: a `run` stands for the body of its module, with the formals replaced by the actuals and the
//! module's own names written apart.
#![tactic(auto)]

mod laws;

pub use laws::inlining_is_flattening;
