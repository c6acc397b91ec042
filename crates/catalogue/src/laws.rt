//! Laws of catalogues.
ghost use Rattle.std.specs.Prelude.{◌≡◌, ℕ, List, All, map};
ghost use Rattle.misere_theory.specs.Certificates.{Certificate, Accepted, kind_of};
ghost use Rattle.catalogue.specs.Texts.{catalogue_text};

use misere_theory::certificates::accepted_certificates_are_unique;

/// Two catalogues of the same codes and kinds in the same order have one text, byte for byte: a
/// code has one accepted certificate of a kind at most.
pub fn texts_of_the_same_codes_are_equal()
    ensures { (cs ds : List Certificate) → All Accepted cs → All Accepted ds
        → map {B = List ℕ × ℕ} (λ c. (c.code, kind_of c)) cs
        ≡ map {B = List ℕ × ℕ} (λ d. (d.code, kind_of d)) ds
        → catalogue_text cs ≡ catalogue_text ds }
{
    accepted_certificates_are_unique();
}
