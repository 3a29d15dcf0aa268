//! The comparisons of two numbers. Each answers -1, which is TRUE, or 0, which is FALSE, and none of them fails.
ghost use Rattle.std.specs.Prelude.{◌≡◌, Ok};
ghost use Rattle.bv_num.specs.Operation.{exact, operation, truth, Equal, NotEqual, Less, Greater, LessOrEqual, GreaterOrEqual};

/// The number of a truth value.
fn truth(holds: bool) -> i32
    ensures { result ≡ truth holds }
{
    -i32::from(holds)
}

/// `=`
pub fn equal(a: i32, b: i32) -> i32
    ensures value { result ≡ exact Equal a b }
    ensures never_fails { operation Equal a b ≡ Ok result }
{
    truth(a == b)
}

/// `<>`
pub fn not_equal(a: i32, b: i32) -> i32
    ensures value { result ≡ exact NotEqual a b }
    ensures never_fails { operation NotEqual a b ≡ Ok result }
{
    truth(a != b)
}

/// `<`
pub fn less(a: i32, b: i32) -> i32
    ensures value { result ≡ exact Less a b }
    ensures never_fails { operation Less a b ≡ Ok result }
{
    truth(a < b)
}

/// `>`
pub fn greater(a: i32, b: i32) -> i32
    ensures value { result ≡ exact Greater a b }
    ensures never_fails { operation Greater a b ≡ Ok result }
{
    truth(a > b)
}

/// `<=`
pub fn less_or_equal(a: i32, b: i32) -> i32
    ensures value { result ≡ exact LessOrEqual a b }
    ensures never_fails { operation LessOrEqual a b ≡ Ok result }
{
    truth(a <= b)
}

/// `>=`
pub fn greater_or_equal(a: i32, b: i32) -> i32
    ensures value { result ≡ exact GreaterOrEqual a b }
    ensures never_fails { operation GreaterOrEqual a b ≡ Ok result }
{
    truth(a >= b)
}
