// Codes for what has no number. Any content of the arrays is some bank, so a code that names nothing is taken for
// one of the cases, where TryFrom would refuse it.
ghost use Rattle.std.specs.Prelude.{◌≡◌};
ghost use Rattle.memory.specs.Memory as Memory;

use settings::{Stage, StealRestart};
use timing::TimeUnit;

pub fn unit_of(code: u32) -> TimeUnit
    ensures { result ≡ Memory.unit_of code }
{
    match code {
        0 => TimeUnit::Milliseconds,
        _ => TimeUnit::Tempo,
    }
}

pub fn unit_code(unit: TimeUnit) -> u32
    ensures { result ≡ Memory.unit_code unit }
{
    unit as u32
}

pub fn restart_of(code: u32) -> StealRestart
    ensures { result ≡ Memory.restart_of code }
{
    match code {
        0 => StealRestart::CurrentLevel,
        _ => StealRestart::StartLevel,
    }
}

pub fn restart_code(restart: StealRestart) -> u32
    ensures { result ≡ Memory.restart_code restart }
{
    restart as u32
}

pub fn flag_of(code: u32) -> bool
    ensures { result ≡ Memory.flag_of code }
{
    code != 0
}

pub fn flag_code(flag: bool) -> u32
    ensures { result ≡ Memory.flag_code flag }
{
    flag as u32
}

pub(crate) fn stage_named(code: u32) -> Stage
    ensures { result ≡ Memory.stage_of code }
{
    match code {
        1 => Stage::Delay,
        2 => Stage::Attack,
        3 => Stage::Hold,
        4 => Stage::Decay,
        5 => Stage::Sustain,
        6 => Stage::Release,
        _ => Stage::Idle,
    }
}

pub fn stage_code(stage: Stage) -> u32
    ensures { result ≡ Memory.stage_code stage }
{
    stage as u32
}
