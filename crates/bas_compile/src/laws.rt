//! The law of compiled images, which takes no step.
ghost use Rattle.std.specs.Prelude.{◌≡◌, ◌≢◌, ℕ, List};
ghost use Rattle.arm2_machine.specs.Image.{ImageOf};
ghost use Rattle.arm2_machine.specs.Step.{board_run};
ghost use Rattle.bas_compile.specs.Correct.{CompilesTo};
ghost use Rattle.bas_sem.specs.Meaning.{source_run};
ghost use Rattle.bv_base.specs.Words.{AreWords};
ghost use Rattle.bv_run.specs.Outcome.{Broken};
ghost use Rattle.bv_run.specs.declared.report.Trap.{Trap};
ghost use Rattle.codegen.specs.Agrees.{Agrees, AreBytes};

/// The law of compiled images: whatever words the contents are an image of agree with the program, and their run is never
/// broken.
pub fn compiled_images_agree()
    ensures agrees { (bytes contents words : List ℕ) (compiled : CompilesTo bytes contents) → AreWords words → ImageOf contents words
        → Agrees (source_run compiled.program) words }
    ensures never_broken { (bytes contents words input : List ℕ) → CompilesTo bytes contents → AreWords words → ImageOf contents words
        → AreBytes input → (bound : ℕ) (out arena : List ℕ) (kind : Trap) (address : ℕ) → board_run words input bound ≢ Broken out arena kind address }
{}
