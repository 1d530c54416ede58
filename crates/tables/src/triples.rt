// An access triple in one word: who, the operation, and the operand's position. Its key is the operation and the position.
ghost use Rattle.std.specs.Prelude.{◌≡◌, ◌%◌, ◌*◌, ◌+◌, ◌≤◌};
ghost use Rattle.model.specs.Tables.Words.{operation_count, operation_weight, position_count, triple_of, who_most, who_of, who_weight};

use names::weight;

// Whom a triple names.
pub fn who(x: u32) -> u32
    ensures { result ≡ who_of x }
{
    x / weight::WHO
}

// The key of a triple.
pub fn key(x: u32) -> u32
    ensures { result ≡ x % who_weight }
{
    x % weight::WHO
}

// The key of an operation and a position.
pub fn key_of(op: u32, position: u32) -> u32
    requires { (op ≤ operation_count) × (position ≤ position_count) }
    ensures { result ≡ op * operation_weight + position }
{
    op * weight::OPERATION + position
}

// The triple of these parts.
pub fn triple_of(who: u32, op: u32, position: u32) -> u32
    requires { (who ≤ who_most) × (op ≤ operation_count) × (position ≤ position_count) }
    ensures { result ≡ triple_of who op position }
{
    who * weight::WHO + op * weight::OPERATION + position
}
