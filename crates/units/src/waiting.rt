// A form that was received, and waits to come into force.
use forms::Form;
use measures::Day;

/// A form, and the day on which it was received. On file the form is its row, and to a caller the form itself.
#[derive(Clone, Copy)]
pub struct Received<F> {
    pub day: Day,
    pub form: F,
}

/// A form that waits to come into force, and the day on which it was received.
pub type WaitingForm = Received<Form>;
