//! No code, and no position, has a text with one of the faults.
ghost use Rattle.std.specs.Prelude.{List, ℕ};
ghost use Rattle.verdict_commands.specs.Codes.{IsCodeFault, IsCodeWord};
ghost use Rattle.verdict_commands.specs.Sizes.{IsPositionFault, IsPositionWord};
ghost use Rattle.verdict_commands.specs.declared.faults.WrittenCodeFault.{WrittenCodeFault};
ghost use Rattle.verdict_commands.specs.declared.faults.WrittenPositionFault.{WrittenPositionFault};

/// No code has a text with one of the faults.
pub fn faults_refuse_codes()
    ensures { (text : List ℕ) (fault : WrittenCodeFault) → IsCodeFault text fault
        → IsCodeWord text → ⊥ }
{}

/// No position has a text with one of the faults.
pub fn faults_refuse_positions()
    ensures { (text : List ℕ) (fault : WrittenPositionFault) → IsPositionFault text fault
        → IsPositionWord text → ⊥ }
{}
