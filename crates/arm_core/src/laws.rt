//! That the board does with a core what the definitions say.
ghost use Rattle.arm_core.specs.Made.{StepsAreMade};

/// The law of one step: the board makes each instruction that generated code uses as `specs/Effects.antt` says.
pub fn steps_are_made()
    ensures { StepsAreMade }
{}
