// A refusal's number and its text.
ghost use Rattle.std.specs.Prelude.{◌≡◌, Some};
ghost use Rattle.frame.specs.Answer.{number_of};
ghost use Rattle.frame.specs.Texts.{refusal_text};

use crate::Refusal;
use std::error::Error;
use std::fmt;

impl Refusal {
    /// The number of the condition.
    pub fn number(self) -> u8
        ensures { result ≡ number_of self }
    {
        self as u8
    }
}

impl fmt::Display for Refusal {
    ghost output = { λ r. Some (refusal_text r) };

    ghost styled_output = { λ r _. Some (refusal_text r) };

    fn fmt<W: fmt::Write>(&self, f: &mut fmt::Formatter<W>) -> fmt::Result {
        f.write_str(match self {
            Refusal::DeskRange => "no such desk",
            Refusal::FrameLength => "the frame's length is wrong",
            Refusal::FrameVersion => "no such edition",
            Refusal::EntryCount => "the count of entries is wrong",
            Refusal::FieldRange => "a field is out of range",
            Refusal::EntryRange => "an entry is out of range",
            Refusal::NotYetMade => "a mark of this desk that is not yet made",
            Refusal::OtherFields => "a known mark with other fields",
            Refusal::DeskFull => "the desk is full",
            Refusal::WaitingFull => "too many marks wait",
            Refusal::FalseStamp => "the stamp is false",
            Refusal::NotExecuted => "the mark is not executed",
            Refusal::OutputShort => "the lent output is too short",
            Refusal::SameEdition => "the frame has this edition already",
        })
    }
}

impl Error for Refusal {}
