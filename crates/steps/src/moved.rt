// The rule is changed between steps: from flat to own bodies, and not back.
ghost use Rattle.std.specs.Prelude.{◌≡◌};
ghost use Rattle.steps.specs.Steps.{move};

use crate::Steps;

// The state of a check whose further targets are done with binders in their own bodies. The rules
// are a number of the C interface, and bit 1 of it says so.
pub fn to_own_bodies(state: Steps) -> Steps
    ensures { result ≡ move state }
{
    Steps {
        rules: state.rules | 2,
        ..state
    }
}
