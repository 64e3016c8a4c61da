// What the calls and queries do, by example over the whole book.
use crate::book::Book;
use forms::{FormLine, WHOLE_WEIGHT};
use measures::{AccountNumber, Answer, Cents, ClassNumber, Day, Rate, Row, UnitNumber};
use tariff::{Enrolment, Particulars};
use units::WaitingForm;

const UNIT: UnitNumber = UnitNumber(5);

// The number of a refusal, or 0.
fn refused(answer: Answer) -> u8 {
    Row::from(answer).refusal
}

// An enrolment of these numbers, right or wrong ones.
fn given(place: u64, class: u64, watts: u64, day: u64, adder: u64) -> Enrolment {
    Enrolment {
        place,
        energy: 3,
        particulars: Particulars {
            class: ClassNumber(class),
            watts,
            qualified: Day(day),
            base: Rate(20_000),
            adder: Rate(adder),
            subtractor: Rate(250),
            charges: Rate(0),
            average: Rate(0),
        },
    }
}

// A book in which one unit is enrolled.
fn with_a_unit() -> Book {
    let mut book = Book::new();
    let _ = book.enrol(UNIT, given(1, 2, 400_000, 900, 6_000));
    book
}

// A line of these numbers. The tests of the forms have the same helper, since crates share no test code.
fn line(account: u64, weight: u64) -> FormLine {
    FormLine {
        account: AccountNumber(account),
        weight,
    }
}

// The form that waits at a unit, if one is shown.
fn waiting_at(book: &Book, unit: UnitNumber) -> Option<WaitingForm> {
    book.waiting_form(unit).unwrap_or(None)
}

// Whether this waiting form was received on that day, and has these two lines.
fn is_of(waiting: WaitingForm, day: u64, lines: [FormLine; 2]) -> bool {
    waiting.day == Day(day) && waiting.form.lines() == lines.as_slice()
}

#[test]
fn enrols_a_unit_once(rt: HostRuntime) {
    let mut book = Book::new();
    // a unit, five numbers of its enrolment, and the refusal
    let calls = [
        (32, 3, 8, 0, 36_525, 100_001, 1),
        (5, 3, 2, 400_000, 900, 6_000, 3),
        (5, 0, 2, 400_000, 900, 6_000, 3),
        (5, 1, 8, 400_000, 900, 6_000, 3),
        (5, 1, 2, 0, 900, 6_000, 3),
        (5, 1, 2, 5_000_001, 900, 6_000, 3),
        (5, 1, 2, 400_000, 36_525, 6_000, 3),
        (5, 1, 2, 400_000, 900, 100_001, 3),
        (5, 1, 2, 400_000, 900, 6_000, 0),
        (5, 1, 2, 400_000, 900, 6_000, 2),
        (5, 3, 8, 0, 36_525, 100_001, 2),
        (31, 2, 7, 5_000_000, 36_524, 100_000, 0),
    ];
    for (unit, place, class, watts, day, adder, refusal) in calls {
        let answer = book.enrol(UnitNumber(unit), given(place, class, watts, day, adder));
        assert_eq!(rt; refused(answer), refusal);
    }
}

#[test]
fn a_unit_moves_by_notices(rt: HostRuntime) {
    let mut book = with_a_unit();
    // a unit, a notice, its day, and the refusal
    let calls = [
        (6, 1, 1_000, 1),
        (32, 5, 36_525, 1),
        (5, 2, 1_000, 5),
        (5, 3, 1_000, 5),
        (5, 1, 1_000, 0),
        (5, 1, 1_000, 5),
        (5, 3, 1_000, 5),
        (5, 2, 1_000, 0),
        (5, 1, 1_000, 5),
        (5, 2, 1_000, 5),
        (5, 3, 1_000, 0),
        (5, 0, 1_000, 3),
        (5, 5, 1_000, 3),
        (5, 4, 36_525, 3),
        (5, 4, 36_524, 0),
        (5, 1, 1_000, 5),
        (5, 2, 1_000, 5),
        (5, 3, 1_000, 5),
        (5, 4, 1_000, 5),
    ];
    for (unit, notice, day, refusal) in calls {
        assert_eq!(rt;
            refused(book.notice(UnitNumber(unit), notice, Day(day))),
            refusal
        );
    }
}

#[test]
fn forms_come_in_the_order_of_days(rt: HostRuntime) {
    let mut book = with_a_unit();
    let whole = [line(7, 1), line(9, WHOLE_WEIGHT - 1)];
    let newest = [line(3, 2), line(7, WHOLE_WEIGHT - 2)];
    let twice = [line(7, 1), line(7, WHOLE_WEIGHT - 1)];
    assert_eq!(rt; refused(book.form(UnitNumber(6), Day(36_525), &[])), 1);
    assert_eq!(rt; refused(book.form(UNIT, Day(36_525), &[])), 3);
    assert_eq!(rt; refused(book.form(UNIT, Day(1_000), &[])), 8);
    assert_eq!(rt; refused(book.form(UNIT, Day(1_000), &twice)), 9);
    assert!(rt; waiting_at(&book, UNIT).is_none());
    assert_eq!(rt; refused(book.form(UNIT, Day(1_000), &whole)), 0);
    assert_eq!(rt; refused(book.form(UNIT, Day(999), &[])), 4);
    assert_eq!(rt; refused(book.form(UNIT, Day(1_000), &newest)), 0);
    assert!(rt; waiting_at(&book, UNIT).is_some_and(|waiting| is_of(waiting, 1_000, newest)));
    let unlisted = book.waiting_form(UnitNumber(6)).err();
    assert_eq!(rt; unlisted.map(|refusal| refusal.number()), Some(1));
}

#[test]
fn rates_and_entries_have_limits(rt: HostRuntime) {
    let mut book = Book::new();
    // a class, its rate, and the refusal
    let rates = [(8, 100_001, 1), (8, 0, 1), (7, 100_001, 3), (7, 100_000, 0)];
    for (class, rate, refusal) in rates {
        assert_eq!(rt;
            refused(book.basic(ClassNumber(class), Rate(rate))),
            refusal
        );
    }
    // a kind, its cents, and the refusal
    let first = [
        (0, 1, 3),
        (3, 1, 3),
        (1, 100_000_000_001, 3),
        (2, 100_000_000_001, 3),
    ];
    for (kind, cents, refusal) in first {
        assert_eq!(rt; refused(book.enter(kind, Cents(cents))), refusal);
    }
    for _ in 0..10 {
        assert_eq!(rt; refused(book.enter(1, Cents(100_000_000_000))), 0);
    }
    assert_eq!(rt; refused(book.enter(1, Cents(1))), 14);
    assert_eq!(rt; refused(book.enter(2, Cents(345))), 0);
    assert_eq!(rt; book.costs_entered().0, 1_000_000_000_000);
    assert_eq!(rt; book.costs_not_in_balance().0, 1_000_000_000_000);
    assert_eq!(rt; book.market_revenue().0, 345);
    assert_eq!(rt; book.balance().0, -345);
}
