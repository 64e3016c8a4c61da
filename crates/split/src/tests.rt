// What the split does, by example.
use crate::{Unsplit, Weighted, split};
use measures::SignedCents;
use std::process::Abort;

#[derive(Clone, Copy)]
struct Weight(u64);

impl Weighted for Weight {
    ghost weighs = { λ w. w.0 };

    fn weight(&self) -> u64 {
        self.0
    }
}

// What the places hold before a split.
const UNTOUCHED: SignedCents = SignedCents(-7);

// Splits an amount over three weights, and checks the shares, or that it is refused and the places are as they were.
fn check(rt: &impl Abort, amount: i64, weights: [u64; 3], answer: Result<[i64; 3], Unsplit>) {
    let mut places = [UNTOUCHED; 3];
    assert_eq!(rt;
        split(SignedCents(amount), &weights.map(Weight), &mut places),
        answer.map(|_| ())
    );
    assert_eq!(rt;
        places,
        answer.map_or([UNTOUCHED; 3], |shares| shares.map(SignedCents))
    );
}

#[test]
fn splits_by_weight(rt: HostRuntime) {
    check(&rt, 100, [3_333, 3_333, 3_334], Ok([33, 33, 34]));
    check(&rt, -101, [5_000, 0, 5_000], Ok([-50, 0, -51]));
    check(&rt, 0, [1, 2, 3], Ok([0, 0, 0]));
    check(&rt, 5, [0, 1, 0], Ok([0, 5, 0]));
    check(&rt, -5, [0, 0, 1], Ok([0, 0, -5]));
    check(
        &rt,
        1_000_000,
        [1, 499_999, 500_000],
        Ok([1, 499_999, 500_000]),
    );
    check(
        &rt,
        100_000_000_000_000,
        [333_333, 333_333, 333_334],
        Ok([33_333_300_000_000, 33_333_300_000_000, 33_333_400_000_000]),
    );
    check(
        &rt,
        -100_000_000_000_000,
        [1, 1, 1],
        Ok([
            -33_333_333_333_333,
            -33_333_333_333_333,
            -33_333_333_333_334,
        ]),
    );
}

#[test]
fn refuses_for_the_first_reason(rt: HostRuntime) {
    check(
        &rt,
        100_000_000_000_001,
        [0, 0, 0],
        Err(Unsplit::AmountTooLarge),
    );
    check(
        &rt,
        -100_000_000_000_001,
        [1, 1, 1],
        Err(Unsplit::AmountTooLarge),
    );
    check(&rt, i64::MIN, [1, 1, 1], Err(Unsplit::AmountTooLarge));
    check(&rt, 100, [0, 0, 0], Err(Unsplit::TotalOutOfRange));
    check(&rt, 100, [1_000_000, 0, 1], Err(Unsplit::TotalOutOfRange));
    check(
        &rt,
        100,
        [1, u64::MAX, u64::MAX],
        Err(Unsplit::TotalOutOfRange),
    );
    let mut places = [UNTOUCHED; 2];
    assert_eq!(rt;
        split(SignedCents(9), &[Weight(1); 3], &mut places),
        Err(Unsplit::WrongLength)
    );
    assert_eq!(rt;
        split(SignedCents(9), &[Weight(1)], &mut places),
        Err(Unsplit::WrongLength)
    );
    assert_eq!(rt;
        split(SignedCents(9), &[Weight(0)], &mut places),
        Err(Unsplit::TotalOutOfRange)
    );
    assert_eq!(rt; places, [UNTOUCHED; 2]);
}

// Sixteen entries: each share is less than a cent from its part, and the cents that are over are spread.
#[test]
fn splits_over_sixteen_entries(rt: HostRuntime) {
    let mut places = [UNTOUCHED; 16];
    assert_eq!(rt;
        split(SignedCents(-100), &[Weight(625); 16], &mut places),
        Ok(())
    );
    for four in places.chunks_exact(4) {
        assert_eq!(rt;
            four,
            [-6, -6, -6, -7].map(SignedCents).as_slice(),
            "a sixteenth of -100"
        );
    }
}
