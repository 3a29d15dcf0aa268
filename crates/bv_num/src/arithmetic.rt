//! Arithmetic on 32 bits with a sign, with the errors of its results.
ghost use Rattle.std.specs.Prelude.{◌≡◌, ◌≤◌, ◌^◌, ◌+ℤ◌, ◌*ℤ◌, unsigned_abs, IfOk};
ghost use Rattle.bv_num.specs.Operation.{in_range, quotient, operation, negated, magnitude, Add, Subtract, Multiply, Divide, Remainder};

/// The error of DIV and MOD by zero.
pub const DIVISION_BY_ZERO: u8 = 18;

/// The error of a result that is no 32-bit signed integer.
pub const TOO_BIG: u8 = 20;

/// An exact result as a 32-bit integer; `TOO_BIG` where it is none. It is compared once, moved up by 2^31, so that a
/// compiler makes one addition and a jump on overflow of it.
pub fn narrow(exact: i64) -> Result<i32, u8>
    requires { unsigned_abs exact ≤ 2 ^ 62 }
    ensures { result ≡ in_range exact }
{
    let biased = (exact + 0x8000_0000).cast_unsigned();
    if biased > 0xffff_ffff {
        return Err(TOO_BIG);
    }
    Ok(exact as i32)
}

/// The sum, or `TOO_BIG`.
pub fn add(a: i32, b: i32) -> Result<i32, u8>
    ensures { result ≡ operation Add a b }
{
    narrow(i64::from(a) + i64::from(b))
}

/// The difference, or `TOO_BIG`.
pub fn sub(a: i32, b: i32) -> Result<i32, u8>
    ensures { result ≡ operation Subtract a b }
{
    narrow(i64::from(a) - i64::from(b))
}

/// The product, or `TOO_BIG`.
pub fn mul(a: i32, b: i32) -> Result<i32, u8>
    ensures { result ≡ operation Multiply a b }
{
    narrow(i64::from(a) * i64::from(b))
}

/// DIV: the quotient rounded towards zero, `DIVISION_BY_ZERO`, or `TOO_BIG` for -2147483648 DIV -1.
pub fn div(a: i32, b: i32) -> Result<i32, u8>
    ensures { result ≡ operation Divide a b }
{
    if b == 0 {
        return Err(DIVISION_BY_ZERO);
    }
    narrow(i64::from(a) / i64::from(b))
}

/// MOD: the remainder of DIV, with the dividend's sign, or `DIVISION_BY_ZERO`.
pub fn rem(a: i32, b: i32) -> Result<i32, u8>
    ensures value { result ≡ operation Remainder a b }
    ensures whole { IfOk result (λ r. quotient a b *ℤ b +ℤ r ≡ a) }
{
    if b == 0 {
        return Err(DIVISION_BY_ZERO);
    }
    narrow(i64::from(a) % i64::from(b))
}

/// Unary minus; `TOO_BIG` for -2147483648.
pub fn neg(a: i32) -> Result<i32, u8>
    ensures { result ≡ negated a }
{
    narrow(-i64::from(a))
}

/// ABS: the number without its sign; `TOO_BIG` for -2147483648.
pub fn abs(a: i32) -> Result<i32, u8>
    ensures { result ≡ magnitude a }
{
    narrow(i64::from(a).abs())
}
