// The roundings and the ranges, by example.
use crate::measure::{Millicents, Rate, SignedMillicents};
use crate::number::{AccountNumber, ClassNumber, Day, Ranged, UnitNumber};
use crate::rounding::{rounded_down, rounded_to_nearest, rounded_toward_zero};

#[test]
fn rounds_in_three_ways(rt: HostRuntime) {
    // a number and its divisor, and the quotient rounded down, toward zero and to the nearest
    let quotients = [
        (-1, 1_000, -1, 0, 0),
        (-1_000, 1_000, -1, -1, -1),
        (-1_001, 1_000, -2, -1, -1),
        (999, 1_000, 0, 0, 1),
        (-120_001 * 850, 120_000, -851, -850, -850),
        (1_000, 2_000, 0, 0, 1),
        (-1_000, 2_000, -1, 0, -1),
        (999, 2_000, 0, 0, 0),
        (-999, 2_000, -1, 0, 0),
        (i64::MIN, 1, i64::MIN, i64::MIN, i64::MIN),
        (i64::MAX, 1, i64::MAX, i64::MAX, i64::MAX),
        (i64::MIN, u64::MAX, -1, 0, -1),
        (i64::MAX, u64::MAX, 0, 0, 0),
    ];
    for (n, divisor, down, toward_zero, nearest) in quotients {
        assert_eq!(rt; rounded_down(n, divisor), Some(down));
        assert_eq!(rt; rounded_toward_zero(n, divisor), Some(toward_zero));
        assert_eq!(rt; rounded_to_nearest(n, divisor), Some(nearest));
    }
    for n in [i64::MIN, -1, 0, i64::MAX] {
        assert!(rt; rounded_down(n, 0).is_none());
        assert!(rt; rounded_toward_zero(n, 0).is_none());
        assert!(rt; rounded_to_nearest(n, 0).is_none());
    }
}

#[test]
fn millicents_have_whole_cents(rt: HostRuntime) {
    let amounts = [
        (0, 0, 0),
        (999, 0, 999),
        (1_000, 1, 0),
        (18_064_526, 18_064, 526),
        (u64::MAX, 18_446_744_073_709_551, 615),
    ];
    for (amount, cents, left) in amounts {
        assert_eq!(rt; Millicents(amount).whole_cents().0, cents);
        assert_eq!(rt; Millicents(amount).fraction().0, left);
    }
    // the last but one is a factor of -333 on 10 kWh
    let signed = [
        (999, 0),
        (-1, -1),
        (-1_000, -1),
        (-333 * 10, -4),
        (3_330, 3),
    ];
    for (amount, cents) in signed {
        assert_eq!(rt; SignedMillicents(amount).whole_cents().0, cents);
    }
}

#[test]
fn numbers_end_with_their_ranges(rt: HostRuntime) {
    // a number, and whether it is a class, a unit, a day, a rate and an account
    let numbers = [
        (0, true, true, true, true, false),
        (1, true, true, true, true, true),
        (7, true, true, true, true, true),
        (8, false, true, true, true, true),
        (31, false, true, true, true, true),
        (32, false, false, true, true, true),
        (36_524, false, false, true, true, true),
        (36_525, false, false, false, true, true),
        (100_000, false, false, false, true, true),
        (100_001, false, false, false, false, true),
        (99_999_999_999, false, false, false, false, true),
        (100_000_000_000, false, false, false, false, false),
        (u64::MAX, false, false, false, false, false),
    ];
    for (n, class, unit, day, rate, account) in numbers {
        assert_eq!(rt; ClassNumber(n).is_in_range(), class);
        assert_eq!(rt; UnitNumber(n).is_in_range(), unit);
        assert_eq!(rt; Day(n).is_in_range(), day);
        assert_eq!(rt; Rate(n).is_in_range(), rate);
        assert_eq!(rt; AccountNumber(n).is_in_range(), account);
    }
}
