// How a reader is made, takes in a part of a text, and comes to its end.
ghost use Rattle.std.specs.Prelude.{◌≡◌, [], Ok};
ghost use Rattle.records.specs.Grammar.{OneRecord, OneFault};
ghost use Rattle.records.specs.Readers.{Taken, Readied, Reads, Finishes};

use crate::draft::Draft;
use crate::fault::Fault;
use crate::field_list::FieldList;
use crate::reader::{Event, Progress, Reader};

impl Reader {
    /// A reader at the start of a text.
    pub fn new() -> Reader
        ensures ready { (result.status ≡ Ok Event.More) × (Taken result []) }
        ensures reading { (OneRecord) × (OneFault) }
    {
        Reader {
            draft: Draft::new(),
            status: Ok(Event::More),
        }
    }

    /// Makes ready for the next byte, or answers the fault that ended the reading.
    fn ready(&mut self) -> Result<(), Fault>
        ensures { Readied self.old result self.new }
    {
        if self.status? == Event::Record {
            self.draft.clear();
        }
        Ok(())
    }

    /// Takes in a part of the text, as far as the end of a record or a fault.
    pub fn read(&mut self, part: &[u8]) -> Progress
        ensures { Reads self.old part.now result self.new }
    {
        if let Err(fault) = self.ready() {
            return Progress {
                used: 0,
                event: Err(fault),
            };
        }
        let progress = self.draft.read(part);
        self.status = progress.event;
        progress
    }

    /// Takes in the end of the text, which may end a record.
    pub fn finish(&mut self) -> Result<Event, Fault>
        ensures { Finishes self.old result self.new }
    {
        self.ready()?;
        let event = self.draft.finish();
        self.status = event;
        event
    }

    /// The fields of the record that ended last, until more of the text is read.
    pub fn fields(&self) -> &FieldList
        ensures { result.now ≡ self.now.draft.fields }
    {
        self.draft.fields()
    }
}
