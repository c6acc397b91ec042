//! The calls on infinite quotients and on presentations.
ghost use Rattle.std.specs.List.Sorted.{IsNonDecreasing};
ghost use Rattle.std.specs.Prelude.{◌≡◌, ◌≢◌, ◌≤◌, ◌<◌, ℕ, Bool, List, true, false, IsPermutation, length, take};
ghost use Rattle.std.specs.declared.option.Option.TheVariants.{None, Some};
ghost use Rattle.infinite_library.specs.Found.{IsPresentedOf, IsToldOf, IsUntold};
ghost use Rattle.infinite_queries.specs.Asked.{AreNoAnswers, AreRefused, AreShown, FailsAt, IsNoAnswer, IsNoAnswerToMany, TellsAnswer, TellsOutcome};
ghost use Rattle.infinite_queries.specs.Described.{IsOpenedCode, IsOpenedText, IsOpenedUntold};
ghost use Rattle.infinite_queries.specs.Valued.{IsOpenedUnvalued, IsOpenedValue};
ghost use Rattle.opened.specs.Texts.{kind_of, order_of};
ghost use Rattle.player.specs.Asked.{IsOpened, IsUnopened, IsUnshared};
ghost use Rattle.player.specs.Many.{TellAll};

use crate::solving::{found_of, handed};
use infinite_queries::{
    answer, answers, check, close, code, describe, failure, kind, open, order, outcome, outcomes,
    share, value,
};
use opened::OpenedInfinite;
use player::MisereAnswer;
use std::alloc::Global;

/// Whether the bytes are an accepted text of a whole game, whose quotient is infinite, or an accepted presentation, whose
/// quotient may be finite: 0, or the number of the refusal.
#[unsafe(no_mangle)]
pub extern "C" fn misere_check_infinite(alloc: Global, bytes: &[u8]) -> u32
    ensures yes { result ≡ 0 → AreShown bytes.now (λ k. Unit {0}) }
    ensures no { result ≢ 0 → AreRefused bytes.now result }
{
    check(alloc, bytes)
}

/// Checks the bytes, and where the rule of the code's game fails at a position tells how many heaps
/// it has, and which, if there is room for them.
#[unsafe(no_mangle)]
pub extern "C" fn misere_infinite_failure(
    alloc: Global,
    bytes: &[u8],
    told: &mut [u64],
    count: &mut u64,
) -> u32
    ensures yes { result ≡ 0 → AreShown bytes.now (λ k. Unit {0}) }
    ensures no { result ≢ 0 → AreRefused bytes.now result }
    ensures fails { result ≡ 7 → count.new ≤ length told.old
        → FailsAt bytes.now (take count.new told.new) }
    ensures counts { result ≡ 7 → (X : List ℕ) × FailsAt bytes.now X × (count.new ≡ length X) }
    ensures no_room { length told.old < count.new → told.new ≡ told.old }
    ensures stays { result ≢ 7 → told.new ≡ told.old × count.new ≡ count.old }
{
    failure(alloc, bytes, told, count)
}

/// Opens the quotient that the bytes show, in place of what was opened there: 0, or the number of the refusal. The bytes
/// aren't needed any more.
#[unsafe(no_mangle)]
pub extern "C" fn misere_infinite_open(
    alloc: Global,
    bytes: &[u8],
    told: &mut OpenedInfinite,
) -> u32
    ensures yes { result ≡ 0 → AreShown bytes.now (λ k. told.new.handle.value ≡ Some k) }
    ensures no { result ≢ 0 → AreRefused bytes.now result }
    ensures stays { result ≢ 0 → told.new ≡ told.old }
{
    open(alloc, bytes, told)
}

/// Makes a second owner of what is opened, in place of what was opened there.
#[unsafe(no_mangle)]
pub extern "C" fn misere_infinite_share(
    alloc: Global,
    opened: &mut OpenedInfinite,
    told: &mut OpenedInfinite,
) -> u32
    ensures yes { result ≡ 0 → IsOpened opened.old.handle.value (λ k. told.new.handle.value ≡ Some k) }
    ensures no { result ≢ 0 → IsUnshared opened.old.handle.value result }
    ensures same { opened.new.handle.value ≡ opened.old.handle.value }
    ensures stays { result ≢ 0 → told.new ≡ told.old }
{
    share(alloc, opened, told)
}

/// Closes what is opened: 0, or the number for nothing that is opened.
#[unsafe(no_mangle)]
pub extern "C" fn misere_infinite_close(alloc: Global, opened: &mut OpenedInfinite) -> u32
    ensures closed { opened.new.handle.value ≡ None }
    ensures yes { result ≡ 0 → IsOpened opened.old.handle.value (λ k. Unit {0}) }
    ensures no { result ≢ 0 → IsUnopened opened.old.handle.value result }
{
    close(alloc, opened)
}

/// Tells of which heaps it speaks: 0 where of those of every size, and else the last one. Some before that
/// may be left out.
#[unsafe(no_mangle)]
pub extern "C" fn misere_infinite_kind(
    alloc: Global,
    opened: &mut OpenedInfinite,
    told: &mut u64,
) -> u32
    ensures yes { result ≡ 0 → IsOpened opened.old.handle.value (λ s. told.new ≡ kind_of s) }
    ensures no { result ≢ 0 → IsUnopened opened.old.handle.value result }
    ensures same { opened.new.handle.value ≡ opened.old.handle.value }
    ensures stays { result ≢ 0 → told.new ≡ told.old }
{
    kind(alloc, opened, told)
}

/// Tells how many elements the quotient has, or 0 where it is infinite.
#[unsafe(no_mangle)]
pub extern "C" fn misere_infinite_order(
    alloc: Global,
    opened: &mut OpenedInfinite,
    told: &mut u64,
) -> u32
    ensures yes { result ≡ 0 → IsOpened opened.old.handle.value (λ s. told.new ≡ order_of s) }
    ensures no { result ≢ 0 → IsUnopened opened.old.handle.value result }
    ensures same { opened.new.handle.value ≡ opened.old.handle.value }
    ensures stays { result ≢ 0 → told.new ≡ told.old }
{
    order(alloc, opened, told)
}

/// Tells the code of what is opened, such as 0.26, and how many bytes it has; where there is no room for them,
/// how many they are alone.
#[unsafe(no_mangle)]
pub extern "C" fn misere_infinite_code(
    alloc: Global,
    opened: &mut OpenedInfinite,
    told: &mut [u8],
    count: &mut u64,
) -> u32
    ensures yes { result ≡ 0 → IsOpenedCode opened.old.handle.value (take count.new told.new) }
    ensures no { result ≢ 0 → result ≢ 14 → IsUnshared opened.old.handle.value result }
    ensures same { opened.new.handle.value ≡ opened.old.handle.value }
    ensures stays { result ≢ 0 → told.new ≡ told.old }
    ensures room { result ≡ 14 → length told.old < count.new }
    ensures counts { result ≡ 14 → (text : List ℕ)
        × IsOpenedCode opened.old.handle.value text × (count.new ≡ length text) }
    ensures untold { result ≢ 0 → result ≢ 14 → count.new ≡ count.old }
{
    code(alloc, opened, told, count)
}

/// Tells who wins the position of the heaps under misère play: 0 where the player who has just moved
/// does, and 1 where the next one does. It takes no memory.
#[unsafe(no_mangle)]
pub extern "C" fn misere_infinite_outcome(
    alloc: Global,
    opened: &mut OpenedInfinite,
    heaps: &[u64],
    told: &mut u32,
) -> u32
    ensures yes { result ≡ 0 → IsOpened opened.old.handle.value (TellsOutcome heaps.now told.new) }
    ensures no { result ≢ 0 → IsNoAnswer opened.old.handle.value heaps.now result }
    ensures same { opened.new.handle.value ≡ opened.old.handle.value }
    ensures stays { result ≢ 0 → told.new ≡ told.old }
{
    outcome(alloc, opened, heaps, told)
}

/// Tells what to do in the position of the heaps: the first winning move, where there is one. Then
/// the heaps stand rising in their own memory, and it takes no other.
#[unsafe(no_mangle)]
pub extern "C" fn misere_infinite_answer(
    alloc: Global,
    opened: &mut OpenedInfinite,
    heaps: &mut [u64],
    told: &mut MisereAnswer,
) -> u32
    ensures yes { result ≡ 0 → IsOpened opened.old.handle.value (TellsAnswer heaps.old told.new) }
    ensures heaps { result ≡ 0 → IsPermutation heaps.old heaps.new }
    ensures rising { result ≡ 0 → IsNonDecreasing heaps.new }
    ensures no { result ≢ 0 → IsNoAnswer opened.old.handle.value heaps.old result }
    ensures same { opened.new.handle.value ≡ opened.old.handle.value }
    ensures stays { result ≢ 0 → told.new ≡ told.old × heaps.new ≡ heaps.old }
{
    answer(alloc, opened, heaps, told)
}

/// Tells the outcome of each of many positions: of the heaps before the first of the ends, of those
/// from there to before the second, and so on. It takes no memory.
#[unsafe(no_mangle)]
pub extern "C" fn misere_infinite_outcomes(
    alloc: Global,
    opened: &mut OpenedInfinite,
    heaps: &[u64],
    ends: &[u64],
    told: &mut [u32],
) -> u32
    ensures yes { result ≡ 0
        → IsOpened opened.old.handle.value (TellAll TellsOutcome heaps.now ends.now told.new) }
    ensures no { result ≢ 0
        → IsNoAnswerToMany opened.old.handle.value heaps.now ends.now (length told.old) result }
    ensures same { opened.new.handle.value ≡ opened.old.handle.value }
    ensures stays { result ≢ 0 → told.new ≡ told.old }
{
    outcomes(alloc, opened, heaps, ends, told)
}

/// Tells what to do in each of many positions, which stand as for `misere_infinite_outcomes`.
#[unsafe(no_mangle)]
pub extern "C" fn misere_infinite_answers(
    alloc: Global,
    opened: &mut OpenedInfinite,
    heaps: &[u64],
    ends: &[u64],
    told: &mut [MisereAnswer],
) -> u32
    ensures yes { result ≡ 0
        → IsOpened opened.old.handle.value (TellAll TellsAnswer heaps.now ends.now told.new) }
    ensures no { result ≢ 0
        → AreNoAnswers opened.old.handle.value heaps.now ends.now (length told.old) result }
    ensures same { opened.new.handle.value ≡ opened.old.handle.value }
    ensures stays { result ≢ 0 → told.new ≡ told.old }
{
    answers(alloc, opened, heaps, ends, told)
}

/// Describes what is opened: `output` is 0 for lines for readers, 1 for LaTeX and 3 for JSON. Tells the
/// text, and how many bytes it has; where there is no room for them, how many they are alone.
#[unsafe(no_mangle)]
pub extern "C" fn misere_infinite_describe(
    alloc: Global,
    opened: &mut OpenedInfinite,
    output: u32,
    told: &mut [u8],
    count: &mut u64,
) -> u32
    ensures described { result ≡ 0
        → IsOpenedText opened.old.handle.value output (take count.new told.new) }
    ensures no { result ≢ 0 → result ≢ 14 → IsOpenedUntold opened.old.handle.value output result }
    ensures same { opened.new.handle.value ≡ opened.old.handle.value }
    ensures stays { result ≢ 0 → told.new ≡ told.old }
    ensures room { result ≡ 14 → length told.old < count.new }
    ensures counts { result ≡ 14 → (text : List ℕ)
        × IsOpenedText opened.old.handle.value output text × (count.new ≡ length text) }
    ensures untold { result ≢ 0 → result ≢ 14 → count.new ≡ count.old }
{
    describe(alloc, opened, output, told, count)
}

/// Tells the element of the position of the heaps by a presentation that is opened: the normal form of its word, such as
/// ab^2, or 1. Tells how many bytes it has, too; where there is no room for them, how many they are alone.
#[unsafe(no_mangle)]
pub extern "C" fn misere_infinite_value(
    alloc: Global,
    opened: &mut OpenedInfinite,
    heaps: &[u64],
    told: &mut [u8],
    count: &mut u64,
) -> u32
    ensures yes { result ≡ 0
        → IsOpenedValue opened.old.handle.value heaps.now (take count.new told.new) }
    ensures no { result ≢ 0 → result ≢ 14
        → IsOpenedUnvalued opened.old.handle.value heaps.now result }
    ensures same { opened.new.handle.value ≡ opened.old.handle.value }
    ensures stays { result ≢ 0 → told.new ≡ told.old }
    ensures room { result ≡ 14 → length told.old < count.new }
    ensures counts { result ≡ 14 → (text : List ℕ)
        × IsOpenedValue opened.old.handle.value heaps.now text × (count.new ≡ length text) }
    ensures untold { result ≢ 0 → result ≢ 14 → count.new ≡ count.old }
{
    value(alloc, opened, heaps, told, count)
}

/// Looks for an infinite quotient of a code: of its whole game, or else a presentation of that of the heaps 1 to at most
/// `heaps`, from 1 to 1024. Tells the text, which `misere_infinite_open` opens, and how many bytes it has; of a search
/// that was given up the line that says how, which needs room too. Where there is no room, it tells how many bytes they
/// are alone.
#[unsafe(no_mangle)]
pub extern "C" fn misere_solve_infinite(
    alloc: Global,
    code: &[u8],
    heaps: u32,
    told: &mut [u8],
    count: &mut u64,
) -> u32
    ensures found { result ≡ 0 → IsToldOf code.now heaps (take count.new told.new) true }
    ensures given_up { result ≡ 13 → IsToldOf code.now heaps (take count.new told.new) false }
    ensures no { result ≢ 0 → result ≢ 13 → result ≢ 14 → IsUntold code.now heaps result }
    ensures stays { result ≢ 0 → result ≢ 13 → told.new ≡ told.old }
    ensures room { result ≡ 14 → length told.old < count.new }
    ensures counts { result ≡ 14 → (text : List ℕ) × (succeeds : Bool)
        × IsToldOf code.now heaps text succeeds × (count.new ≡ length text) }
    ensures untold { result ≢ 0 → result ≢ 13 → result ≢ 14 → count.new ≡ count.old }
{
    match found_of(alloc, code, heaps, false) {
        Ok(said) => handed(&said, told, count),
        Err(status) => status,
    }
}

/// Looks for a presentation of an infinite quotient of a code, of the heaps 1 to at most `heaps`, from 1 to 1024. Tells the
/// text, which `misere_infinite_open` opens, as `misere_solve_infinite` does.
#[unsafe(no_mangle)]
pub extern "C" fn misere_solve_presented(
    alloc: Global,
    code: &[u8],
    heaps: u32,
    told: &mut [u8],
    count: &mut u64,
) -> u32
    ensures found { result ≡ 0 → IsPresentedOf code.now heaps (take count.new told.new) true }
    ensures given_up { result ≡ 13 → IsPresentedOf code.now heaps (take count.new told.new) false }
    ensures no { result ≢ 0 → result ≢ 13 → result ≢ 14 → IsUntold code.now heaps result }
    ensures stays { result ≢ 0 → result ≢ 13 → told.new ≡ told.old }
    ensures room { result ≡ 14 → length told.old < count.new }
    ensures counts { result ≡ 14 → (text : List ℕ) × (succeeds : Bool)
        × IsPresentedOf code.now heaps text succeeds × (count.new ≡ length text) }
    ensures untold { result ≢ 0 → result ≢ 13 → result ≢ 14 → count.new ≡ count.old }
{
    match found_of(alloc, code, heaps, true) {
        Ok(said) => handed(&said, told, count),
        Err(status) => status,
    }
}
