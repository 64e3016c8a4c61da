// How a record is read on by one byte.
ghost use Rattle.std.specs.Prelude.{[], ◌∷◌, ◌++◌};
ghost use Rattle.records.specs.FieldLists.{complete, current};
ghost use Rattle.records.specs.Drafts.{Room, Counted, CountedField, Takes};

use crate::action::{Action, Mode, act};
use crate::draft::Draft;
use crate::fault::Fault;
use crate::limits::MAX_BYTES;
use crate::reader::Event;

impl Draft {
    /// Counts a byte of the record's own, if there is room for it.
    fn count(&mut self) -> Result<(), Fault>
        ensures { Room self.old result self.new }
    {
        if self.taken >= MAX_BYTES {
            return Err(Fault::TooLong);
        }
        self.taken += 1;
        Ok(())
    }

    /// Takes in a byte of the last field's value.
    fn keep(&mut self, byte: u8, mode: Mode) -> Result<Event, Fault>
        ensures { Counted result self.old self.new mode (complete self.old.fields) (current self.old.fields ++ (byte ∷ [])) }
    {
        self.count()?;
        self.fields.add(byte);
        self.mode = mode;
        Ok(Event::More)
    }

    /// Takes in a quote that is not of the value.
    fn quote(&mut self, mode: Mode) -> Result<Event, Fault>
        ensures { Counted result self.old self.new mode (complete self.old.fields) (current self.old.fields) }
    {
        self.count()?;
        self.mode = mode;
        Ok(Event::More)
    }

    /// Takes in the comma after a field.
    fn separate(&mut self) -> Result<Event, Fault>
        ensures { CountedField result self.old self.new }
    {
        if self.fields.is_full() {
            return Err(Fault::TooLong);
        }
        self.count()?;
        self.fields.separate();
        self.mode = Mode::Plain;
        Ok(Event::More)
    }

    /// Takes in a byte of the record.
    #[tactic(auto, using(crate::proofs::Drafts::takes))]
    pub(crate) fn take_in(&mut self, byte: u8) -> Result<Event, Fault>
        ensures { Takes self.old byte result self.new }
    {
        let fresh = self.fields.is_fresh();
        match act(self.mode, fresh, byte) {
            Action::Keep(mode) => self.keep(byte, mode),
            Action::OpenQuotes => self.quote(Mode::Quoted),
            Action::CloseQuotes => self.quote(Mode::Closing),
            Action::Separate => self.separate(),
            Action::Return => {
                self.mode = Mode::Returned;
                Ok(Event::More)
            }
            Action::End => Ok(Event::Record),
            Action::Refuse => Err(Fault::BadText),
        }
    }
}
