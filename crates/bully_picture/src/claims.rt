//! Whether the claims of a trace are shown.
ghost use Rattle.std.specs.Prelude.{◌≡◌};
ghost use Rattle.bully_picture.specs.Drawn.{is_shown};

use bully_film::Scene;
use bully_trace::Verdict;

/// Whether a picture shows claims. One that decided is always shown.
#[derive(Clone, Copy)]
pub enum Claims {
    Shown,
    LeftOut,
}

/// Whether the row has a line.
pub fn is_shown(claims: Claims, verdict: Verdict, scene: &Scene) -> bool
    ensures { result ≡ is_shown claims verdict scene.now }
{
    match claims {
        Claims::Shown => true,
        Claims::LeftOut => scene.event_kind.is_some() || verdict.decides(scene.number),
    }
}
