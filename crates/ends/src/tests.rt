// What the account table does, by example, and how code above any end is proved.
ghost use Rattle.std.specs.Prelude.{◌≡◌, ◌+◌};
ghost use Rattle.ends.specs.Postings.{Posting};
ghost use Rattle.std.proofs.Common.{rules};

use crate::billing_end::BillingEnd;
use crate::table::AccountTable;
use measures::{AccountNumber, Cents, Row};

// An end that takes nothing. It settles no more than what a posting means, and takes that for its relation.
#[derive(Drop)]
struct Deaf;

impl BillingEnd for Deaf {
    ghost credits = { λ _ _. 0 };

    ghost reaches = { λ _ _. 0 };

    ghost posts = { λ _ account cents taken _. Posting (λ _. 0) (λ _. 0) account cents taken (λ _. 0) (λ _. 0) };

    ghost outside = { Prim.search rules };

    ghost meaning = { Prim.search rules };

    fn credit(&self, _account: AccountNumber) -> Cents {
        Cents(0)
    }

    fn post(&mut self, _account: AccountNumber, _cents: Cents) -> bool {
        false
    }
}

// What an account's credit rises by at a posting, over any end: proved from what every end promises.
fn rise<E: BillingEnd>(end: &mut E, account: AccountNumber, cents: Cents) -> Cents
    ensures { E.credits end.new account.0 ≡ E.credits end.old account.0 + result.0 }
{
    if end.post(account, cents) {
        cents
    } else {
        Cents(0)
    }
}

#[test]
fn takes_postings_up_to_the_reach(rt: HostRuntime) {
    let mut table = AccountTable::new();
    let account = AccountNumber(99_999_999_999);
    let _ = table.open(account);
    assert!(rt; !table.post(account, Cents(10_000_000_001)));
    for _ in 0..100 {
        assert!(rt; table.post(account, Cents(10_000_000_000)));
    }
    assert!(rt; !table.post(account, Cents(1)));
    assert_eq!(rt; table.credit(account).0, 1_000_000_000_000);
}

#[test]
fn keeps_the_credit_of_a_closed_account(rt: HostRuntime) {
    let mut table = AccountTable::new();
    let account = AccountNumber(7);
    let _ = table.open(account);
    assert!(rt; table.post(account, Cents(5)));
    let _ = table.close(account);
    assert!(rt; !table.post(account, Cents(5)));
    let _ = table.open(account);
    assert_eq!(rt; table.credit(account).0, 5);
}

#[test]
fn lists_no_more_than_256_accounts(rt: HostRuntime) {
    let mut table = AccountTable::new();
    for n in 0..257 {
        let _ = table.open(AccountNumber(n));
    }
    assert_eq!(rt; Row::from(table.open(AccountNumber(0))).refusal, 3);
    assert_eq!(rt; Row::from(table.open(AccountNumber(257))).refusal, 16);
    assert_eq!(rt; Row::from(table.close(AccountNumber(257))).refusal, 1);
    assert_eq!(rt; Row::from(table.open(AccountNumber(256))).refusal, 0);
}

#[test]
fn credit_rises_by_what_is_taken(rt: HostRuntime) {
    let mut table = AccountTable::new();
    let account = AccountNumber(7);
    let _ = table.open(account);
    assert_eq!(rt; rise(&mut table, account, Cents(5)).0, 5);
    let mut deaf = Deaf;
    assert_eq!(rt; rise(&mut deaf, account, Cents(5)).0, 0);
}
