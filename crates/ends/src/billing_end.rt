// What every billing end promises: the code above it is proved once for each that keeps this.
ghost use Rattle.std.specs.Prelude.{◌≡◌, ℕ, Bool, false};
ghost use Rattle.ends.specs.Postings.{Posting};
ghost use Rattle.measures.specs.Measures.{is_account};

use measures::{AccountNumber, Cents};

/// A place where credit is posted. It has a credit for each account, and a reach: the most that it takes in one posting now.
pub trait BillingEnd {
    /// The credit of each account, in cents.
    ghost credits: { Self → ℕ → ℕ };

    /// The most that each account takes in one posting now, in cents.
    ghost reaches: { Self → ℕ → ℕ };

    /// How this end goes on at a posting: the end, the account, the cents, whether it is taken, and the end after.
    /// An end that settles no more than the meaning takes the meaning itself.
    ghost posts: { Self → ℕ → ℕ → Bool → Self → Type 0 };

    /// The credit of an account.
    fn credit(&self, account: AccountNumber) -> Cents
        ensures { result.0 ≡ credits self.now account.0 };

    /// Posts cents to an account, and says whether they are taken.
    fn post(&mut self, account: AccountNumber, cents: Cents) -> bool
        ensures { posts self.old account.0 cents.0 result self.new };

    // A number that is no account number has no credit and no reach.
    ghost outside: { (e : Self) (n : ℕ) → is_account n ≡ false → (credits e n ≡ 0) × (reaches e n ≡ 0) };

    // However an end goes on at a posting, this is what a posting means.
    ghost meaning: { (e : Self) (account cents : ℕ) (taken : Bool) (f : Self) → posts e account cents taken f → Posting (credits e) (reaches e) account cents taken (credits f) (reaches f) };
}
