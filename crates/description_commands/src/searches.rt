//! The texts of a quotient, of which nothing is known but what the calls answer.
ghost use Rattle.std.specs.Prelude.{◌≡◌, IfOk, IfErr};
ghost use Rattle.std.specs.String.{string_bytes};
ghost use Rattle.descriptions.specs.Described.{IsDescription, IsIdealText};
ghost use Rattle.descriptions.specs.Presenting.{IsRelationsWord};
ghost use Rattle.descriptions.specs.Structure.{IsStructure};
ghost use Rattle.relations.specs.declared.finding.Form.TheVariants.{Basis};
ghost use Rattle.description_commands.specs.Described.{HasMet, IsToldOf, Meets};

use answers::Certified;
use descriptions::{
    Form, Notation, RelationsWord, System, Undescribed, description_text, ideal_text,
    relations_word, structure_text,
};
use std::alloc::Global;

/// What writes down quotients by relations. That a search for these met a bound is said by `has_met`.
/// A proof over any such texts has nothing of it but what a call answered.
pub trait Texts {
    /// The search for relations of this quotient in this form met this bound.
    ghost has_met: { Meets };

    /// The description, plain, for LaTeX or in JSON.
    fn description(
        &self,
        alloc: Global,
        notation: Notation,
        certified: &Certified,
        form: Form,
    ) -> Result<String, Undescribed>
        ensures text { IfOk result (λ t. IsDescription notation form certified.now (string_bytes t)) }
        ensures met { IfErr result (IsToldOf has_met certified.now form) };

    /// The ideal of the relations, for a system.
    fn ideal(
        &self,
        alloc: Global,
        system: System,
        certified: &Certified,
        form: Form,
    ) -> Result<String, Undescribed>
        ensures text { IfOk result (λ t. IsIdealText system form certified.now (string_bytes t)) }
        ensures met { IfErr result (IsToldOf has_met certified.now form) };

    /// The relations as one word.
    fn word(
        &self,
        alloc: Global,
        certified: &Certified,
        form: Form,
    ) -> Result<RelationsWord, Undescribed>
        ensures text { IfOk result
            (λ w. IsRelationsWord form certified.now (string_bytes w.word) w.beyond) }
        ensures met { IfErr result (IsToldOf has_met certified.now form) };

    /// The structure by the idempotents.
    fn structure(&self, alloc: Global, certified: &Certified) -> Result<String, Undescribed>
        ensures text { IfOk result (λ t. IsStructure certified.now (string_bytes t)) }
        ensures met { IfErr result (IsToldOf has_met certified.now Basis) };
}

/// The texts that `descriptions` makes.
pub struct Relating;

impl Texts for Relating {
    ghost has_met = { HasMet };

    fn description(
        &self,
        alloc: Global,
        notation: Notation,
        certified: &Certified,
        form: Form,
    ) -> Result<String, Undescribed> {
        description_text(alloc, notation, certified, form)
    }

    fn ideal(
        &self,
        alloc: Global,
        system: System,
        certified: &Certified,
        form: Form,
    ) -> Result<String, Undescribed> {
        ideal_text(alloc, system, certified, form)
    }

    fn word(
        &self,
        alloc: Global,
        certified: &Certified,
        form: Form,
    ) -> Result<RelationsWord, Undescribed> {
        relations_word(alloc, certified, form)
    }

    fn structure(&self, alloc: Global, certified: &Certified) -> Result<String, Undescribed> {
        structure_text(alloc, certified)
    }
}
