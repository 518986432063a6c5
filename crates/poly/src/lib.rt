// No entry points: polynomials as lists of coefficients, s_0 first, which the transform and the block coder are proved with. The one function is
// the plain evaluation at one number, which takes any numbers. Decoding goes by transforms and does not run it; it is here for whoever holds a
// single point.
#![tactic(auto)]

mod horner;

pub use horner::value;
