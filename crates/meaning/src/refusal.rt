// Why a call says no: one enum for the whole library.
ghost use Rattle.std.specs.Prelude.{◌≡◌};
ghost use Rattle.meaning.specs.Refusals.{number_of, place_of, reason_of};

use std::fmt;

#[derive(Clone, Copy, PartialEq, Eq, Debug)]
pub enum Refusal {
    NoSuchItem,
    NoSuchOption,
    AlreadyStruck,
    NotStruck,
    NoSuchLevel,
    NoRoom,
    Barred,
    NothingConsistent { item: usize },
    Malformed { line: usize },
    // The line is 0 where no sheet is read, here and below.
    OutOfLimits { line: usize },
    OutOfTurn { line: usize },
    MemoryShort,
    BooksDoNotFit,
}

impl Refusal {
    // The refusal's number, by which reports and other languages know it. No conversion, since a refusal has a place too.
    pub fn number(self) -> u32
        ensures { result ≡ number_of self }
    {
        match self {
            Refusal::NoSuchItem => 1,
            Refusal::NoSuchOption => 2,
            Refusal::AlreadyStruck => 3,
            Refusal::NotStruck => 4,
            Refusal::NoSuchLevel => 5,
            Refusal::NoRoom => 6,
            Refusal::Barred => 7,
            Refusal::NothingConsistent { .. } => 8,
            Refusal::Malformed { .. } => 9,
            Refusal::OutOfLimits { .. } => 10,
            Refusal::OutOfTurn { .. } => 11,
            Refusal::MemoryShort => 12,
            Refusal::BooksDoNotFit => 13,
        }
    }

    // The line of a sheet, or the item with nothing left; 0 where there is neither.
    pub fn place(self) -> usize
        ensures { result ≡ place_of self }
    {
        match self {
            Refusal::NothingConsistent { item } => item,
            Refusal::Malformed { line } => line,
            Refusal::OutOfLimits { line } => line,
            Refusal::OutOfTurn { line } => line,
            _ => 0,
        }
    }

    // The reason in words for a person.
    pub fn reason(self) -> &'static str
        ensures { result.now ≡ reason_of self }
    {
        match self {
            Refusal::NoSuchItem => "no such item",
            Refusal::NoSuchOption => "no such option",
            Refusal::AlreadyStruck => "option already struck",
            Refusal::NotStruck => "option not struck",
            Refusal::NoSuchLevel => "level above 2",
            Refusal::NoRoom => "count buffer short, or a waiting list full, too small or not empty",
            Refusal::Barred => "session barred: asked edition is not the book's",
            Refusal::NothingConsistent { .. } => "nothing consistent",
            Refusal::Malformed { .. } => "line absent, unended or malformed",
            Refusal::OutOfLimits { .. } => "number outside its limits",
            Refusal::OutOfTurn { .. } => "line out of turn",
            Refusal::MemoryShort => "memory short or sheet too long",
            Refusal::BooksDoNotFit => "books do not fit",
        }
    }
}

impl fmt::Display for Refusal {
    fn fmt<W: fmt::Write>(&self, f: &mut fmt::Formatter<W>) -> fmt::Result {
        let number = self.number();
        let reason = self.reason();
        write!(f, "refusal {number}: {reason}")
    }
}
