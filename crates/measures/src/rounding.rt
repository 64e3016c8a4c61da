// The three ways to round the quotient of a signed number. Each answers `None` for the divisor 0.
// They work on plain numbers, since a quotient is of another measure than what is divided.
ghost use Rattle.std.specs.Prelude.{◌≡◌, ◌≤◌, unsigned_abs};
ghost use Rattle.measures.specs.Rounding.{by_divisor, down, toward_zero, nearest, with_sign_of};

/// The quotient rounded down, also below zero.
pub fn rounded_down(n: i64, divisor: u64) -> Option<i64>
    ensures { result ≡ by_divisor down n divisor }
{
    if n >= 0 {
        Some(n.unsigned_abs().checked_div(divisor)? as i64)
    } else {
        Some(-1 - (n.unsigned_abs() - 1).checked_div(divisor)? as i64)
    }
}

/// The quotient rounded toward zero.
pub fn rounded_toward_zero(n: i64, divisor: u64) -> Option<i64>
    ensures { result ≡ by_divisor toward_zero n divisor }
{
    Some(with_sign_of(n, n.unsigned_abs().checked_div(divisor)?))
}

/// The quotient rounded to the nearest whole number, halves away from zero.
pub fn rounded_to_nearest(n: i64, divisor: u64) -> Option<i64>
    ensures { result ≡ by_divisor nearest n divisor }
{
    let size = n.unsigned_abs();
    let whole = size.checked_div(divisor)?;
    let left = size % divisor;
    if left >= divisor - left {
        Some(with_sign_of(n, whole + 1))
    } else {
        Some(with_sign_of(n, whole))
    }
}

// The number of this size with the sign of n.
fn with_sign_of(n: i64, size: u64) -> i64
    requires { size ≤ unsigned_abs n }
    ensures { result ≡ with_sign_of n size }
{
    if n >= 0 {
        size as i64
    } else if size == 0 {
        0
    } else {
        -1 - (size - 1) as i64
    }
}
