// The book: its parts together, and the calls and queries on it.
#![tactic(auto)]

mod book;

pub use book::Book;

#[cfg(test)]
mod tests;
