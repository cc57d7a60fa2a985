// What several crates share: the lesser of two numbers; in specs/, functions on lists that definitions use; in proofs/, laws
// that speak of no one crate's definitions (tests as facts, products, lists).
#![tactic(auto)]

ghost use Rattle.std.specs.Prelude.{◌≡◌, min};

pub fn least(a: usize, b: usize) -> usize
    ensures { result ≡ min a b }
{
    if a < b { a } else { b }
}
