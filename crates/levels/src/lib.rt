// Levels and their order, and sets of roles: each kind of set is compared over its own width.
#![tactic(auto)]

ghost use Rattle.std.specs.Prelude.{◌≡◌, ◌<◌};
ghost use Rattle.model.specs.Level.{at_most, bit, compartment_count, role_count, subset};

use names::size;

// A level: a rank and a set of compartments in one number.
#[derive(Clone, Copy, Debug, PartialEq, Eq)]
pub struct Level(pub u32);

// Whether bit i is in n.
pub fn has_bit(i: u32, n: u32) -> bool
    requires { i < 32 }
    ensures { result ≡ bit i n }
{
    (n >> i) % 2 == 1
}

// Whether each of the first k bits that is in a is in b. The two sets are compared as whole words: what is in both is all of a.
fn bits_within(k: u32, a: u32, b: u32) -> bool
    requires { k < 32 }
    ensures { result ≡ subset k a b }
{
    let w = 1u32 << k;
    let x = a % w;
    let y = b % w;
    x & y == x
}

// Whether each role of a is in b.
pub fn roles_within(a: u32, b: u32) -> bool
    ensures { result ≡ subset role_count a b }
{
    bits_within(size::ROLES, a, b)
}

// Whether each compartment of level a is in level b.
fn compartments_within(a: u32, b: u32) -> bool
    ensures { result ≡ subset compartment_count a b }
{
    bits_within(size::COMPARTMENTS, a, b)
}

// Whether a is at most b: no higher rank, and no compartment that b lacks. Where b lacks none, the greater number has the higher rank or the same one,
// so the whole numbers are compared and no rank is taken out of them. It is not `<=` of levels: a derived order would be that of the numbers, and an
// order by hand would ask both directions.
pub fn at_most(a: Level, b: Level) -> bool
    ensures { result ≡ at_most a.0 b.0 }
{
    let x = a.0;
    let y = b.0;
    (x <= y) & compartments_within(x, y)
}
