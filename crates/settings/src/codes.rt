// The codes of what has no number, as hosts and event lists give them.
ghost use Rattle.std.specs.Prelude.{◌≡◌};
ghost use Rattle.settings.specs.Codes as Codes;

use crate::settings::{StealRestart, Trigger};
use timing::UnnamedCode;

impl TryFrom<u32> for StealRestart {
    type Error = UnnamedCode;

    ghost try_from_gives = { λ code r. r ≡ Codes.restart code };

    fn try_from(code: u32) -> Result<Self, UnnamedCode> {
        match code {
            0 => Ok(StealRestart::CurrentLevel),
            1 => Ok(StealRestart::StartLevel),
            _ => Err(UnnamedCode),
        }
    }
}

impl TryFrom<u32> for Trigger {
    type Error = UnnamedCode;

    ghost try_from_gives = { λ code r. r ≡ Codes.trigger code };

    fn try_from(code: u32) -> Result<Self, UnnamedCode> {
        match code {
            0 => Ok(Trigger::New),
            1 => Ok(Trigger::Retrigger),
            2 => Ok(Trigger::Legato),
            _ => Err(UnnamedCode),
        }
    }
}

// Std's bool has no conversion from a number that may fail.
pub fn flag_named(code: u32) -> Result<bool, UnnamedCode>
    ensures { result ≡ Codes.flag code }
{
    match code {
        0 => Ok(false),
        1 => Ok(true),
        _ => Err(UnnamedCode),
    }
}
