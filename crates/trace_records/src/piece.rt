//! The constant parts of the text of a record.

ghost use Rattle.std.specs.Prelude.{◌≡◌};
ghost use Rattle.trace_records.specs.Templates.{constant_part};

/// A constant part of the text of a record, named by what comes behind it.
#[derive(Clone, Copy)]
pub(crate) enum Piece {
    Phase,
    Process,
    Thread,
    Tick,
    Name,
    Duration,
    End,
    ProcessName,
    ThreadName,
    SortIndex,
    NameEnd,
    CountEnd,
    Times,
    RankOf,
    Rank,
    Ticks,
    Moves,
    InstantEnd,
    Flow,
    FlowEnd,
}

impl Piece {
    #[tactic(auto, unfolding(crate::specs::Templates::constant_part))]
    pub(crate) fn text(self) -> &'static str
        ensures { result.now ≡ constant_part self }
    {
        match self {
            Piece::Phase => ",\n{\"ph\":\"",
            Piece::Process => "\",\"pid\":",
            Piece::Thread => ",\"tid\":",
            Piece::Tick => ",\"ts\":",
            Piece::Name => ",\"name\":\"",
            Piece::Duration => "\",\"dur\":",
            Piece::End => "}",
            Piece::ProcessName => ",\"name\":\"process_name\",\"args\":{\"name\":\"",
            Piece::ThreadName => ",\"name\":\"thread_name\",\"args\":{\"name\":\"",
            Piece::SortIndex => ",\"name\":\"thread_sort_index\",\"args\":{\"sort_index\":",
            Piece::NameEnd => "\"}}",
            Piece::CountEnd => "}}",
            Piece::Times => "\",\"s\":\"t\",\"args\":{\"times\":",
            Piece::RankOf => ",\"name\":\"rank of ",
            Piece::Rank => "\",\"args\":{\"rank\":",
            Piece::Ticks => ",\"name\":\"ticks\",\"args\":{\"ticks\":",
            Piece::Moves => "moves to cpu ",
            Piece::InstantEnd => "\",\"s\":\"t\"}",
            Piece::Flow => "\",\"cat\":\"flow\",\"id\":",
            Piece::FlowEnd => ",\"bp\":\"e\"}",
        }
    }
}
