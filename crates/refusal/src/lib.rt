// The questions of document 01, 'The questions, in order', and of document 02's requests as refusals: one case for each question
// that can fail, with its number. What asks answers a `Result` with `Refusal` as its error. `Invalid` is model.rs's; the others that
// codec.rs names keep their names.
#![tactic(auto)]

ghost use Rattle.std.specs.Prelude.{◌≡◌};
ghost use Rattle.refusal.specs.Number.{question_number, answer_number, NumbersApart};

// Why a workout cannot be played.
#[derive(Clone, Copy, Drop)]
pub enum Invalid {
    NoSteps,
    // A block reaches past the steps, overlaps another or repeats nothing.
    Block,
    // A step that can never end or a target out of range.
    Step,
    // Repeats expand past MAX_PLAYED.
    TooLong,
}

// Which question the input or the call failed.
#[derive(Clone, Copy, Drop)]
pub enum Refusal {
    Length,
    Magic,
    Version,
    Checksum,
    Field,
    Invalid(Invalid),
    Profile,
    Cadence,
    Update,
    Totals,
    EventPlaces,
    Extra,
    // A ride sheet is document 01's name for a stored list of calls with their values; an act is one of them.
    SheetLength,
    Act,
    Record,
    Output,
    // A player is standing, in document 01's word, if its fields agree with each other and lie within their limits.
    Standing,
    // Request l: there are bikes 0 to 3.
    BikeNumber,
}

impl Refusal {
    // The number of the question in documents 01 and 02.
    pub fn number(self) -> u32
        ensures { result ≡ question_number self }
    {
        match self {
            Refusal::Length => 1,
            Refusal::Magic => 2,
            Refusal::Version => 3,
            Refusal::Checksum => 4,
            Refusal::Field => 5,
            Refusal::Invalid(invalid) => match invalid {
                Invalid::NoSteps => 6,
                Invalid::Block => 7,
                Invalid::Step => 8,
                Invalid::TooLong => 9,
            },
            Refusal::Profile => 10,
            Refusal::Cadence => 11,
            Refusal::Update => 12,
            Refusal::Totals => 13,
            Refusal::EventPlaces => 14,
            Refusal::Extra => 15,
            Refusal::SheetLength => 16,
            Refusal::Act => 17,
            Refusal::Record => 18,
            Refusal::Output => 19,
            Refusal::Standing => 20,
            Refusal::BikeNumber => 29,
        }
    }
}

// The number of an answer: 0 where nothing is refused, else that of the question that failed first.
pub fn answer_number(answer: Result<(), Refusal>) -> u32
    ensures { result ≡ answer_number answer }
{
    match answer {
        Ok(()) => 0,
        Err(refusal) => refusal.number(),
    }
}

// No two questions have one number, and none has 0.
pub fn numbers_apart()
    ensures { NumbersApart }
{}
