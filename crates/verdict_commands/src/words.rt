//! `explain --code` and `explain --position`: why a text is no code, or no position.
ghost use Rattle.std.specs.Prelude.{IfOk};
ghost use Rattle.verdict_commands.specs.WordExplained.{ExplainsCode, ExplainsPosition};

use crate::lines::{code_fault_text, position_fault_text};
use crate::{code_fault, faults_refuse_codes, faults_refuse_positions, position_fault};
use command_results::Said;
use std::alloc::{AllocError, Global};

/// Says why the text is no code: the first of its faults; or that it is a code.
pub fn explain_code(alloc: Global, code: &str) -> Result<Said, AllocError>
    ensures { IfOk result (λ s. ExplainsCode code.now s.text.items s.succeeds) }
{
    faults_refuse_codes();
    match code_fault(code.as_bytes()) {
        Some(fault) => {
            let text = code_fault_text(alloc, fault)?;
            Ok(Said::no(text.into_bytes()))
        }
        None => {
            let text = String::from_str(alloc, "a code\n")?;
            Ok(Said::done(text))
        }
    }
}

/// Says why the text is no position: the first of its faults; or that it is a position.
pub fn explain_position(alloc: Global, position: &str) -> Result<Said, AllocError>
    ensures { IfOk result (λ s. ExplainsPosition position.now s.text.items s.succeeds) }
{
    faults_refuse_positions();
    match position_fault(position.as_bytes()) {
        Some(fault) => {
            let text = position_fault_text(alloc, fault)?;
            Ok(Said::no(text.into_bytes()))
        }
        None => {
            let text = String::from_str(alloc, "a position\n")?;
            Ok(Said::done(text))
        }
    }
}
