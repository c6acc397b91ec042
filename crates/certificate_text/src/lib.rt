//! The text of certificates: which bytes spell which certificate, as definitions, and their laws.
//!
//! `Spells` (specs/Spelling.antt) is the one text of each certificate; `SpellsByLines`
//! (specs/Lines.antt) says the same as a relation, line for line; `certificate_at`
//! (specs/Reading.antt) reads from left to right. Nothing here runs.
#![tactic(auto)]

/// How many bytes a text in the third format has at most.
pub const LONGEST_TEXT: usize = 4194304;

ghost use Rattle.std.specs.Prelude.{◌≡◌, ◌≢◌, ◌++◌, ◌∷◌, ◌*◌, ◌<◌, ◌≤◌, ◌^◌, ℕ, List, [], Some, All, length, codes};
ghost use Rattle.std.specs.List.{concat};
ghost use Rattle.std.specs.Fmt.{decimal};
ghost use Rattle.misere_theory.specs.Certificates.{Certificate, InRanges, Accepted, format_of};
ghost use Rattle.octal_code.specs.Text.{IsCodeText};
ghost use Rattle.certificate_text.specs.Spelling.{text, lines, IsWritable, Spells};
ghost use Rattle.certificate_text.specs.Lines.{IsNumber, SpellsByLines};
ghost use Rattle.certificate_text.specs.Reading.{certificate_at, code_line_at, rows_at, rows_of};

/// Bytes spell at most one certificate, a certificate has one spelling, and no spelling begins
/// another.
pub fn spellings_are_unique()
    ensures value { (b : List ℕ) (c d : Certificate) → Spells b c → Spells b d → c ≡ d }
    ensures bytes { (a b : List ℕ) (c : Certificate) → Spells a c → Spells b c → a ≡ b }
    ensures beginning { (a x : List ℕ) (c d : Certificate) → Spells a c → Spells (a ++ x) d
        → x ≡ [] }
{}

/// The text of a certificate begins with the number of its format.
pub fn texts_begin_with_their_format()
    ensures first { (b : List ℕ) (c : Certificate) → Spells b c → format_of c ≡ 1
        → (x : List ℕ) × (b ≡ codes "mqc 1\n" ++ x) }
    ensures second { (b : List ℕ) (c : Certificate) → Spells b c → format_of c ≡ 2
        → (x : List ℕ) × (b ≡ codes "mqc 2\n" ++ x) }
    ensures third { (b : List ℕ) (c : Certificate) → Spells b c → format_of c ≡ 3
        → (x : List ℕ) × (b ≡ codes "mqc 3\n" ++ x) }
{}

/// The text of a certificate is its lines, each with its words: the two ways to say it agree.
pub fn lines_are_the_text()
    ensures text { (b : List ℕ) (c : Certificate) → SpellsByLines b c → Spells b c }
    ensures lines { (b : List ℕ) (c : Certificate) → Spells b c → SpellsByLines b c }
{}

/// The digits of a number are its decimal text, and no other bytes are.
pub fn numbers_are_decimal()
    ensures one { (ds : List ℕ) (n : ℕ) → n < 2 ^ 64 → IsNumber ds n → ds ≡ decimal n }
    ensures is { (n : ℕ) → n < 2 ^ 64 → IsNumber (decimal n) n }
{}

/// What is read from left to right to the end is spelled so, and what is spelled so is read.
pub fn reading_is_spelling()
    ensures writable { (b : List ℕ) (c : Certificate) (rest : List ℕ)
        → certificate_at b ≡ Some (c, rest) → IsWritable c }
    ensures takes { (b : List ℕ) (c : Certificate) → certificate_at b ≡ Some (c, []) → Spells b c }
    ensures again { (b : List ℕ) (c : Certificate) → Spells b c → certificate_at b ≡ Some (c, []) }
{}

/// In the first two formats a text can say each certificate in its ranges, and in the third each
/// accepted one whose text isn't too long.
pub fn certificates_are_writable()
    ensures full { (c : Certificate) → InRanges c → format_of c ≢ 3 → IsWritable c }
    ensures accepted { (c : Certificate) → Accepted c → length (text (lines c)) ≤ LONGEST_TEXT
        → IsWritable c }
{}

/// The code's line holds the text of a code, and ends at its first LF.
pub fn code_lines_are_codes()
    ensures taken { (b digits rest : List ℕ) → code_line_at b ≡ Some (digits, rest)
        → (word : List ℕ) × (b ≡ word ++ 10 ∷ rest) × IsCodeText word digits
        × All (λ x. x ≢ 10) word }
    ensures again { (word digits rest : List ℕ) → IsCodeText word digits
        → code_line_at (word ++ 10 ∷ rest) ≡ Some (digits, rest) }
{}

/// The rows that are read lie one behind the other, with nothing besides.
pub fn rows_lie_flat()
    ensures count { (order n : ℕ) (b xs rest : List ℕ) → 0 < order → order ≤ 2 ^ 16
        → rows_at order n b ≡ Some (xs, rest) → length xs ≡ n * order }
    ensures whole { (order n : ℕ) (b xs rest : List ℕ) → 0 < order → order ≤ 2 ^ 16
        → rows_at order n b ≡ Some (xs, rest) → concat (rows_of order n xs) ≡ xs }
{}
