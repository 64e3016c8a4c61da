// How a record is begun, read on by a part of a text, and brought to the text's end.
ghost use Rattle.std.specs.Prelude.{◌≡◌, []};
ghost use Rattle.records.specs.Drafts.{Holds, ReadOn, FinishOn};

use crate::action::Mode;
use crate::draft::Draft;
use crate::fault::Fault;
use crate::field_list::FieldList;
use crate::reader::{Event, Progress};

impl Draft {
    /// A record of which nothing is read.
    #[tactic(auto, using(crate::proofs::Drafts::under_way_start))]
    pub(crate) fn new() -> Draft
        ensures { Holds result [] }
    {
        Draft {
            fields: FieldList::new(),
            mode: Mode::Plain,
            taken: 0,
        }
    }

    /// Begins the next record.
    // No plainer as `*self = Draft::new()`, which makes and moves a whole kilobyte where only the bytes that were kept, the mode and a count are set anew.
    #[tactic(auto, using(crate::proofs::Drafts::under_way_start))]
    pub(crate) fn clear(&mut self)
        ensures { Holds self.new [] }
    {
        self.fields.clear();
        self.mode = Mode::Plain;
        self.taken = 0;
    }

    /// Takes in a part of the text, as far as the end of the record or a fault.
    pub(crate) fn read(&mut self, part: &[u8]) -> Progress
        ensures { ReadOn (Holds self.old) part.now result self.new }
    {
        for (i, byte) in part.iter().enumerate() {
            match self.take_in(*byte) {
                Ok(Event::More) => {}
                Ok(Event::Record) => {
                    return Progress {
                        used: i + 1,
                        event: Ok(Event::Record),
                    };
                }
                Err(fault) => {
                    return Progress {
                        used: i,
                        event: Err(fault),
                    };
                }
            }
        }
        Progress {
            used: part.len(),
            event: Ok(Event::More),
        }
    }

    /// Takes in the end of the text, inside the record or before it.
    pub(crate) fn finish(&self) -> Result<Event, Fault>
        ensures { FinishOn (Holds self.now) result self.now }
    {
        match self.mode {
            Mode::Plain | Mode::Closing => {
                if self.taken == 0 {
                    Ok(Event::More)
                } else {
                    Ok(Event::Record)
                }
            }
            Mode::Quoted | Mode::Returned => Err(Fault::BadText),
        }
    }

    /// The fields, as far as they are read.
    pub(crate) fn fields(&self) -> &FieldList
        ensures { result.now ≡ self.now.fields }
    {
        &self.fields
    }
}
