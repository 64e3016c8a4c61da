// Opening a book, and what is then known of its whole life.
#![tactic(auto)]

ghost use Rattle.journal.specs.Law.{Lifelong};
ghost use Rattle.journal.specs.Worlds.{ReachedAtOnce};
ghost use Rattle.ledger.specs.Calls.{Opened};

use ledger::Book;

/// Opens a book. Along every page of calls, in any order and some refused, each query will answer the page's count.
pub fn open_book() -> Book
    ensures opened { Opened result }
    ensures reached { ReachedAtOnce result }
    ensures law { Lifelong }
{
    empty_book()
}

// A book on which no call was made yet.
fn empty_book() -> Book
    ensures { Opened result }
{
    Book::new()
}
