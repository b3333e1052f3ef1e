// Operators on integers, on a shape and an integer, and equality. A value of any kind is handed over as its word.
#![tactic(auto)]

pub mod equality;
pub mod integers;
pub mod shapes;

ghost use Rattle.std.specs.Prelude.{◌≡◌};
ghost use Rattle.operators.specs.Parts.{both_integers};

use machine::kinds;

// Whether both words are integers: a caller that asks can go to `integers` itself.
pub fn both_integers(a: u64, b: u64) -> bool
    ensures { result ≡ both_integers a b }
{
    if a % 8 != kinds::INTEGER {
        return false;
    }
    b % 8 == kinds::INTEGER
}
