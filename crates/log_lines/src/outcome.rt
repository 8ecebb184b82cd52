//! The outcomes of a log's lines.
ghost use Rattle.std.specs.Prelude.{◌≡◌, ◌<◌};
ghost use Rattle.log_lines.specs.LineOutcomes.{outcome_name, outcome_index};

use ais_messages::MessageCause;
use aivdm::LineCause;
use tracks::ReportCause;

/// The outcome of a line, in the order of the report's counts.
#[derive(Clone, Copy, Debug, PartialEq, Eq)]
pub enum LineOutcome {
    /// The line has no byte.
    Empty,
    /// The line has more than 1024 bytes.
    Long,
    /// Its tag block is malformed or has a wrong checksum.
    Tag,
    /// It is not a VDM or VDO sentence.
    Other,
    /// Its sentence is malformed.
    Form,
    /// The checksum is wrong.
    Sum,
    /// A byte of the payload does not stand for six bits.
    Armour,
    /// Its time is not in the window.
    Outside,
    /// It is too late.
    Late,
    /// It is a part of a message that needs more parts.
    Part,
    /// It is a part of a message whose earlier parts are missing.
    Orphan,
    /// The message has too few bits.
    Short,
    /// The program does not read this type of message.
    Kind,
    /// The sender of the message is not a ship.
    NotShip,
    /// The report has no place.
    NoPos,
    /// The place is outside the region.
    Far,
    /// The report is not after the vessel's latest accepted one.
    Back,
    /// The report repeats the latest accepted one.
    Repeat,
    /// The vessel cannot have moved that far.
    Jump,
    /// The message has data of the vessel but not her place.
    Static,
    /// The report is accepted.
    Point,
}

impl From<LineCause> for LineOutcome {
    ghost use Rattle.std.specs.Prelude.{◌≡◌};
    ghost use Rattle.log_lines.specs.LineOutcomes.{line_outcome};

    ghost from_gives = { λ cause outcome. outcome ≡ line_outcome cause };

    fn from(cause: LineCause) -> LineOutcome {
        match cause {
            LineCause::Empty => LineOutcome::Empty,
            LineCause::Long => LineOutcome::Long,
            LineCause::Tag => LineOutcome::Tag,
            LineCause::Other => LineOutcome::Other,
            LineCause::Form => LineOutcome::Form,
            LineCause::Sum => LineOutcome::Sum,
            LineCause::Armour => LineOutcome::Armour,
        }
    }
}

impl From<MessageCause> for LineOutcome {
    ghost use Rattle.std.specs.Prelude.{◌≡◌};
    ghost use Rattle.log_lines.specs.LineOutcomes.{message_outcome};

    ghost from_gives = { λ cause outcome. outcome ≡ message_outcome cause };

    fn from(cause: MessageCause) -> LineOutcome {
        match cause {
            MessageCause::Short => LineOutcome::Short,
            MessageCause::Kind => LineOutcome::Kind,
            MessageCause::NotShip => LineOutcome::NotShip,
        }
    }
}

impl From<ReportCause> for LineOutcome {
    ghost use Rattle.std.specs.Prelude.{◌≡◌};
    ghost use Rattle.log_lines.specs.LineOutcomes.{report_outcome};

    ghost from_gives = { λ cause outcome. outcome ≡ report_outcome cause };

    fn from(cause: ReportCause) -> LineOutcome {
        match cause {
            ReportCause::NoPos => LineOutcome::NoPos,
            ReportCause::Far => LineOutcome::Far,
            ReportCause::Back => LineOutcome::Back,
            ReportCause::Repeat => LineOutcome::Repeat,
            ReportCause::Jump => LineOutcome::Jump,
        }
    }
}

impl LineOutcome {
    /// All outcomes, in the order of the report.
    pub const ALL: [LineOutcome; 21] = [
        LineOutcome::Empty,
        LineOutcome::Long,
        LineOutcome::Tag,
        LineOutcome::Other,
        LineOutcome::Form,
        LineOutcome::Sum,
        LineOutcome::Armour,
        LineOutcome::Outside,
        LineOutcome::Late,
        LineOutcome::Part,
        LineOutcome::Orphan,
        LineOutcome::Short,
        LineOutcome::Kind,
        LineOutcome::NotShip,
        LineOutcome::NoPos,
        LineOutcome::Far,
        LineOutcome::Back,
        LineOutcome::Repeat,
        LineOutcome::Jump,
        LineOutcome::Static,
        LineOutcome::Point,
    ];

    /// Returns the name in the report.
    pub fn name(self) -> &'static str
        ensures { result.now ≡ outcome_name self }
    {
        match self {
            LineOutcome::Empty => "empty",
            LineOutcome::Long => "long",
            LineOutcome::Tag => "tag",
            LineOutcome::Other => "other",
            LineOutcome::Form => "form",
            LineOutcome::Sum => "sum",
            LineOutcome::Armour => "armour",
            LineOutcome::Outside => "outside",
            LineOutcome::Late => "late",
            LineOutcome::Part => "part",
            LineOutcome::Orphan => "orphan",
            LineOutcome::Short => "short",
            LineOutcome::Kind => "kind",
            LineOutcome::NotShip => "notship",
            LineOutcome::NoPos => "nopos",
            LineOutcome::Far => "far",
            LineOutcome::Back => "back",
            LineOutcome::Repeat => "repeat",
            LineOutcome::Jump => "jump",
            LineOutcome::Static => "static",
            LineOutcome::Point => "point",
        }
    }

    /// Returns the index in that order, counted from 0.
    pub fn place(self) -> usize
        ensures place { result ≡ outcome_index self }
        ensures within { result < 21 }
    {
        self as usize
    }
}
