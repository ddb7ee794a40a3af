// The kinds of records.
ghost use Rattle.std.specs.Prelude.{◌≡◌};
ghost use Rattle.std.specs.Option.{ok_or};
ghost use Rattle.settings.specs.declared.refusals.Refusal.{Refusal};
ghost use Rattle.events.specs.Format as Format;

use settings::Refusal;

#[derive(Clone, Copy)]
pub(crate) enum Tag {
    Open,
    SetParams,
    SetAllParams,
    SetTiming,
    Trigger,
    Release,
    Reset,
    Join,
    Frames,
}

impl TryFrom<u8> for Tag {
    type Error = Refusal;

    ghost try_from_gives = { λ number r. r ≡ ok_or (Format.tag_of number) Refusal.UnknownTag };

    fn try_from(number: u8) -> Result<Self, Refusal> {
        match number {
            1 => Ok(Tag::Open),
            2 => Ok(Tag::SetParams),
            3 => Ok(Tag::SetAllParams),
            4 => Ok(Tag::SetTiming),
            5 => Ok(Tag::Trigger),
            6 => Ok(Tag::Release),
            7 => Ok(Tag::Reset),
            8 => Ok(Tag::Join),
            9 => Ok(Tag::Frames),
            _ => Err(Refusal::UnknownTag),
        }
    }
}

impl Tag {
    // How many bytes follow a record's head.
    pub(crate) fn body_length(self) -> usize
        ensures { result ≡ Format.body_length self }
    {
        match self {
            Tag::Open => 72,
            Tag::SetParams => 48,
            Tag::SetAllParams => 47,
            Tag::SetTiming => 24,
            Tag::Trigger => 2,
            Tag::Release => 1,
            Tag::Reset => 1,
            Tag::Join => 2,
            Tag::Frames => 4,
        }
    }

    pub(crate) fn is_open(self) -> bool
        ensures { result ≡ Format.is_open self }
    {
        matches!(self, Tag::Open)
    }
}
