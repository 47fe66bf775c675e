// Why an operation refuses what it was given. 9, a list with more lines than there is space for, says also how much it needs, and stands with
// the operations that write lists (`planning::Unplanned`).
#![tactic(auto)]

ghost use Rattle.std.specs.Prelude.{◌≡◌};
ghost use Rattle.refusals.specs.Numbers.{number};

#[derive(Clone, Copy, PartialEq, Eq, Debug)]
pub enum Refusal {
    SheetTooLong = 1,
    WrongForm = 2,
    NoSize = 3,
    OutOfRange = 4,
    MarkAbsent = 5,
    PanelWithoutLag = 6,
    NoFloor = 7,
    NoTimes = 8,
    WrongCount = 10,
    TimeTooFar = 11,
    NoLoadSize = 12,
    SpaceTooShort = 13,
    TriggerWithoutLag = 14,
}

impl Refusal {
    // The number by which a refusal goes outside.
    pub fn number(self) -> u8
        ensures { result ≡ number self }
    {
        self as u8
    }
}
