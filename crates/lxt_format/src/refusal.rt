// Why a call is refused: the numbers of papers 01 and 02, each with its case.
ghost use Rattle.std.specs.Prelude.{◌≡◌};
ghost use Rattle.lxt_format.specs.Answers.{refusal_number};

// Named after what is wrong: 1 to 17 a file, 18 to 22 and 35 a question on one, 24 and 25 what is to be written.
#[derive(Clone, Copy, Debug, PartialEq, Eq)]
pub enum Refusal {
    Length,
    Header,
    LastByte,
    SectionList,
    Compressed,
    TwoTimeTables,
    SectionAbsent,
    SectionOutside,
    TooManyFacilities,
    Names,
    Geometry,
    Aliases,
    Times,
    RealTest,
    ChangeOutside,
    ChangeContent,
    SharedByte,
    Facility,
    Offset,
    Record,
    Room,
    AskedBytes,
    Input,
    FileRoom,
    ColumnLength,
}

impl Refusal {
    pub fn number(self) -> u8
        ensures { result ≡ refusal_number self }
    {
        match self {
            Refusal::Length => 1,
            Refusal::Header => 2,
            Refusal::LastByte => 3,
            Refusal::SectionList => 4,
            Refusal::Compressed => 5,
            Refusal::TwoTimeTables => 6,
            Refusal::SectionAbsent => 7,
            Refusal::SectionOutside => 8,
            Refusal::TooManyFacilities => 9,
            Refusal::Names => 10,
            Refusal::Geometry => 11,
            Refusal::Aliases => 12,
            Refusal::Times => 13,
            Refusal::RealTest => 14,
            Refusal::ChangeOutside => 15,
            Refusal::ChangeContent => 16,
            Refusal::SharedByte => 17,
            Refusal::Facility => 18,
            Refusal::Offset => 19,
            Refusal::Record => 20,
            Refusal::Room => 21,
            Refusal::AskedBytes => 22,
            Refusal::Input => 24,
            Refusal::FileRoom => 25,
            Refusal::ColumnLength => 35,
        }
    }
}
