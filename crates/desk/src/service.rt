// The desk: it takes in a text of records part by part, carries out what each asks for, and replies to it.
ghost use Rattle.std.specs.Prelude.{◌≡◌, [], length};
ghost use Rattle.ends.specs.Tables.{listed};
ghost use Rattle.records.specs.FieldLists.{fields_of};
ghost use Rattle.records.specs.Readers.{Taken};
ghost use Rattle.desk.specs.Serving.{Concludes, Continues, Ends, Replied, Turns, Within};

use crate::call::Call;
use crate::reply::Reply;
use ends::AccountTable;
use records::{Event, Progress, Reader};

/// What a part of the text came to.
// Three outcomes, and none is an error: with an Option or a Result one of them would be a case inside another.
#[derive(Clone, Copy, PartialEq, Eq, Debug)]
pub enum Turn {
    /// All of it was taken in, and no record ended in it.
    More,
    /// A record ended after so many bytes of it, and this is its reply.
    Reply { used: usize, reply: Reply },
    /// The text is faulty: this is the last reply.
    End(Reply),
}

/// Reads records, and carries out their calls on an account table.
#[derive(Drop)]
pub struct Desk {
    reader: Reader,
    table: AccountTable,
}

impl Desk {
    /// A desk at the start of a text, with no account.
    pub fn new() -> Desk
        ensures { (Taken result.reader []) × (listed result.table ≡ []) }
    {
        Desk {
            reader: Reader::new(),
            table: AccountTable::new(),
        }
    }

    /// Takes in a part of the text, as far as the end of a record.
    pub fn take_in(&mut self, part: &[u8]) -> Turn
        ensures turn { Turns self.old part.now result self.new }
        ensures law { Continues self.old part.now result self.new }
        ensures bounds { Within (length part.now) result }
    {
        let Progress { used, event } = self.reader.read(part);
        match event {
            Ok(Event::More) => Turn::More,
            Ok(Event::Record) => Turn::Reply {
                used,
                reply: self.reply(),
            },
            Err(fault) => Turn::End(Reply::from(fault)),
        }
    }

    /// Takes in the end of the text, and replies to the record that it ends, if it ends one.
    pub fn finish(&mut self) -> Option<Reply>
        ensures turn { Ends self.old result self.new }
        ensures law { Concludes self.old result self.new }
    {
        match self.reader.finish() {
            Ok(Event::More) => None,
            Ok(Event::Record) => Some(self.reply()),
            Err(fault) => Some(Reply::from(fault)),
        }
    }

    // Replies to the record that the reader holds.
    fn reply(&mut self) -> Reply
        ensures reader { self.new.reader ≡ self.old.reader }
        ensures replied { Replied (fields_of self.old.reader.draft.fields) self.old.table result self.new.table }
    {
        match Call::try_from(self.reader.fields()) {
            Ok(call) => Reply {
                word: Some(call.word()),
                answer: call.carry_out(&mut self.table),
            },
            Err(refusal) => Reply::unread(refusal),
        }
    }
}
