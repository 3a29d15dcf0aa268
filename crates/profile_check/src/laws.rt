//! The law of files.

ghost use Rattle.std.specs.Prelude.{◌≡◌, ◌⊎◌};
ghost use Rattle.bas_ast.specs.declared.program.Prog.{Prog as Program};
ghost use Rattle.profile_check.specs.Files.{Accepted, Refused};
ghost use Rattle.profile_check.specs.declared.refusal.Refusal.{Refusal as Reason};

/// The law of files: every file is accepted as exactly one program, or refused for exactly one reason.
pub fn one_verdict(bytes: &[u8])
    ensures accepted_or_refused { ((prog : Program) × Accepted bytes.now prog) ⊎ ((reason : Reason) × Refused bytes.now reason) }
    ensures accepted_once { (a b : Program) → Accepted bytes.now a → Accepted bytes.now b → a ≡ b }
    ensures refused_once { (a b : Reason) → Refused bytes.now a → Refused bytes.now b → a ≡ b }
    ensures never_both { (prog : Program) (reason : Reason) → Accepted bytes.now prog → Refused bytes.now reason → ⊥ }
{}
