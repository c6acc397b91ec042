//! What a certificate claims, by its lines and by its fields.
ghost use Rattle.misere_theory.specs.Certificates.{Certificate, InRanges, claim_of};
ghost use Rattle.monoid_table.specs.Grids.{IsShaped};
ghost use Rattle.monoid_table.specs.PretendingTables.{Agrees, IsInto};
ghost use Rattle.monoid_table.specs.Pretending.{IsPretending};
ghost use Rattle.certificate.specs.Fields.{grid_of, pretending_of};
ghost use Rattle.std.specs.List.{concat};

/// What a certificate claims is what its rows say as a table and its entries as a pretending
/// function.
pub fn claims_agree()
    ensures agrees { (c : Certificate) → InRanges c
        → Agrees (claim_of c) (grid_of c) (pretending_of c) }
    ensures shaped { (c : Certificate) → InRanges c → IsShaped c.order (concat c.rows) }
    ensures pretending { (c : Certificate) → InRanges c → IsPretending (pretending_of c) }
    ensures into { (c : Certificate) → InRanges c → IsInto (grid_of c) (pretending_of c) }
{}
