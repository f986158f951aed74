// The phases of a recorder, each with its byte (specs/Page).

ghost use Rattle.std.specs.Prelude.{◌≡◌};
ghost use Rattle.model.specs.Page.{phase_number};
ghost use Rattle.model.specs.Phases.{phase_meaning};

// "phase (normal, send, collect)"
#[derive(Clone, Copy, PartialEq, Eq)]
pub enum Phase {
    Normal = 0,
    Send = 1,
    Collect = 2,
}

impl From<Phase> for u8 {
    ghost from_gives = { λ p n. n ≡ phase_number (phase_meaning p) };

    #[tactic(auto, unfolding(crate::specs::Page::phase_number))]
    fn from(p: Phase) -> u8 {
        p as u8
    }
}
