// What a phase or recovery allows: the stage of a phase, and what the checks and a crash ask of it; whether recovery is idle.
ghost use Rattle.std.specs.Prelude.{◌≡◌};
ghost use Rattle.dtml.specs.Lines.{stage as stage_of, is_live};
ghost use Rattle.dtml.specs.Checks.{not_idle, is_fresh, is_ready};

use dtml::{Phase, Recovery, Stage};

pub fn stage(p: Phase) -> Stage
    ensures { result ≡ stage_of p }
{
    match p {
        Phase::Fresh => Stage::Fresh,
        Phase::Ready => Stage::Ready,
        Phase::Committed | Phase::Aborted => Stage::Over,
        _ => Stage::AtLine,
    }
}

// Each test is one `matches!`, by its definition's name.
pub fn is_fresh(s: Stage) -> bool
    ensures { result ≡ is_fresh s }
{
    matches!(s, Stage::Fresh)
}

pub fn is_ready(s: Stage) -> bool
    ensures { result ≡ is_ready s }
{
    matches!(s, Stage::Ready)
}

pub fn is_live(s: Stage) -> bool
    ensures { result ≡ is_live s }
{
    matches!(s, Stage::Ready | Stage::AtLine)
}

pub fn not_idle(recovery: Recovery) -> bool
    ensures { result ≡ not_idle recovery }
{
    !matches!(recovery, Recovery::Idle)
}
