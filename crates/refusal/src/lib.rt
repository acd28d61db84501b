// The grounds on which a call is refused, and their numbers.
#![tactic(auto)]

ghost use Rattle.std.specs.Prelude.{◌≡◌};
ghost use Rattle.refusal.specs.Number.{number_of};

// Document 01's table of refusals, in its order, and the cards' further lines.
#[derive(Clone, Copy)]
pub enum Refusal {
    FileTooLong,
    FileTooShort,
    MarkMissing,
    KeyDistance,
    ValueDistance,
    ColumnsOverlap,
    TableNotSound,
    WorkTooShort,
    ColumnLengths,
    RowNotFinite,
    TooManyRows,
    TooManyKeys,
    SectionAbsent,
    SumTooLarge,
    FigureTooLarge,
    OutputTooShort,
    TooManyFileRows,
    TooManyFileGroups,
    SavedTableLayout,
    TooFewRows,
    RaisesTop,
    TotalExceeds,
}

// The number that document 01 or a card gives a refusal.
impl From<Refusal> for u32 {
    ghost from_gives = { λ r n. n ≡ number_of r };

    fn from(r: Refusal) -> u32 {
        match r {
            Refusal::FileTooLong => 1,
            Refusal::FileTooShort => 2,
            Refusal::MarkMissing => 3,
            Refusal::KeyDistance => 4,
            Refusal::ValueDistance => 5,
            Refusal::ColumnsOverlap => 6,
            Refusal::TableNotSound => 7,
            Refusal::WorkTooShort => 8,
            Refusal::ColumnLengths => 9,
            Refusal::RowNotFinite => 10,
            Refusal::TooManyRows => 11,
            Refusal::TooManyKeys => 12,
            Refusal::SectionAbsent => 13,
            Refusal::SumTooLarge => 14,
            Refusal::FigureTooLarge => 15,
            Refusal::OutputTooShort => 16,
            Refusal::TooManyFileRows => 17,
            Refusal::TooManyFileGroups => 18,
            Refusal::SavedTableLayout => 19,
            Refusal::TooFewRows => 20,
            Refusal::RaisesTop => 21,
            Refusal::TotalExceeds => 22,
        }
    }
}
