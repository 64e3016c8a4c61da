// Which lines make a form, by example, and a form that goes on file and comes back.
ghost use Rattle.std.specs.Prelude.{◌≡◌};

use crate::allocation::Form;
use crate::line::FormLine;
use crate::weighing::WHOLE_WEIGHT;
use measures::{AccountNumber, Row};
use std::test::Fail;

// A line of these numbers. The tests of the book have the same helper, since crates share no test code.
fn line(account: u64, weight: u64) -> FormLine {
    FormLine {
        account: AccountNumber(account),
        weight,
    }
}

// The number of the refusal of these lines, or 0.
fn refused(lines: &[FormLine]) -> u8 {
    Row::from(Form::new(lines).map(|_| ())).refusal
}

// Lines of the accounts 1 to 17, the first of this weight and each other of weight 1.
fn seventeen(first: u64) -> [FormLine; 17] {
    let mut lines = [line(1, 1); 17];
    for (account, line) in (1..).zip(lines.iter_mut()) {
        line.account = AccountNumber(account);
    }
    lines[0].weight = first;
    lines
}

// The form that goes on file and comes back: the row of a form is lawful, so it comes back.
fn filed(form: Form) -> Form
    ensures { result.row ≡ form.row }
{
    Form::try_from(form.row()).unwrap()
}

#[test]
fn one_line_or_two(rt: HostRuntime) {
    let ones = [
        (1, WHOLE_WEIGHT, 0),
        (99_999_999_999, WHOLE_WEIGHT, 0),
        (1, 0, 8),
        (1, WHOLE_WEIGHT - 1, 8),
        (1, WHOLE_WEIGHT + 1, 8),
        (1, u64::MAX, 8),
        (0, WHOLE_WEIGHT, 9),
        (100_000_000_000, WHOLE_WEIGHT, 9),
        (0, WHOLE_WEIGHT - 1, 8),
    ];
    for (account, weight, refusal) in ones {
        assert_eq!(rt; refused(&[line(account, weight)]), refusal);
    }
    let pairs = [
        (1, 1, 2, WHOLE_WEIGHT - 1, 0),
        (1, 0, 2, WHOLE_WEIGHT, 8),
        (1, WHOLE_WEIGHT, 2, 0, 8),
        (1, 1, 2, WHOLE_WEIGHT - 2, 8),
        (1, 1, 2, WHOLE_WEIGHT, 8),
        (1, u64::MAX, 2, WHOLE_WEIGHT + 1, 8),
        (1, WHOLE_WEIGHT - 1, 2, u64::MAX, 8),
        (7, 1, 7, WHOLE_WEIGHT - 1, 9),
        (7, 1, 0, WHOLE_WEIGHT - 1, 9),
        (7, 1, 7, WHOLE_WEIGHT, 8),
    ];
    for (first, weight, second, rest, refusal) in pairs {
        assert_eq!(rt;
            refused(&[line(first, weight), line(second, rest)]),
            refusal
        );
    }
}

#[test]
fn up_to_sixteen_lines(rt: HostRuntime) {
    assert_eq!(rt; refused(&[]), 8);
    assert_eq!(rt; refused(&seventeen(WHOLE_WEIGHT - 16)), 8);
    let mut lines = seventeen(WHOLE_WEIGHT - 15);
    assert_eq!(rt; refused(&lines[0..16]), 0);
    lines[15].account = lines[0].account;
    assert_eq!(rt; refused(&lines[0..16]), 9);
}

#[test]
fn lines_are_read_back(rt: HostRuntime) -> Result<(), Fail> {
    let lines = [line(7, 1), line(3, 2), line(5, WHOLE_WEIGHT - 3)];
    let form = Form::new(&lines)?;
    assert_eq!(rt; filed(form).lines(), lines.as_slice());
    Ok(())
}
