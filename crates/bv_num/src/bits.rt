//! The operators on the bits of numbers. None of them fails.
ghost use Rattle.std.specs.Prelude.{◌≡◌, Ok};
ghost use Rattle.bv_num.specs.Operation.{exact, operation, complement, And, Or, Eor};

/// AND: the bits that both numbers have.
pub fn and(a: i32, b: i32) -> i32
    ensures value { result ≡ exact And a b }
    ensures never_fails { operation And a b ≡ Ok result }
{
    a & b
}

/// OR: the bits that one of the numbers has, or both.
pub fn or(a: i32, b: i32) -> i32
    ensures value { result ≡ exact Or a b }
    ensures never_fails { operation Or a b ≡ Ok result }
{
    a | b
}

/// EOR: the bits that one of the numbers has, and not the other.
pub fn eor(a: i32, b: i32) -> i32
    ensures value { result ≡ exact Eor a b }
    ensures never_fails { operation Eor a b ≡ Ok result }
{
    a ^ b
}

/// NOT: the number with each of its 32 bits turned.
pub fn not(a: i32) -> i32
    ensures { result ≡ complement a }
{
    !a
}
