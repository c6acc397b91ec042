//! The calls on opened quotients.
ghost use Rattle.std.specs.List.Sorted.{IsNonDecreasing, IsPermutation};
ghost use Rattle.std.specs.Prelude.{◌≡◌, ◌≢◌, length};
ghost use Rattle.std.specs.declared.option.Option.TheVariants.{None, Some};
ghost use Rattle.misere_library.specs.Queries.{Certify, IsStatus, TellsOutcome, TellsValue, TellsAnswer};
ghost use Rattle.misere_library.specs.Asked.{AreNoAnswers, IsNoAnswer, IsNoAnswerToMany};
ghost use Rattle.player.specs.Asked.{IsOpened, IsUnopened, IsUnshared};
ghost use Rattle.player.specs.Many.{TellAll};

use crate::asking::{Question, answer_in};
use crate::many::answer_all_in;
use crate::opening::{another, owner, tell_all_opened, tell_opened};
use opened::Opened;
use player::{DONE, MEMORY, MisereAnswer, NOT_OPEN};
use std::alloc::Global;

/// Opens the quotient that the bytes certify, in place of what was opened there: 0, or the number of
/// the refusal. The bytes aren't needed any more.
#[unsafe(no_mangle)]
pub extern "C" fn misere_open(alloc: Global, bytes: &[u8], limit: u32, told: &mut Opened) -> u32
    ensures yes { result ≡ 0 → Certify bytes.now limit (λ c. told.new.handle.value ≡ Some c) }
    ensures no { result ≢ 0 → IsStatus bytes.now limit result }
    ensures stays { result ≢ 0 → told.new ≡ told.old }
{
    match owner(alloc, bytes, limit) {
        Ok(quotient) => {
            told.put(alloc, quotient);
            DONE
        }
        Err(status) => status,
    }
}

/// Makes a second owner of what is opened, in place of what was opened there.
#[unsafe(no_mangle)]
pub extern "C" fn misere_share(alloc: Global, opened: &mut Opened, told: &mut Opened) -> u32
    ensures yes { result ≡ 0 → IsOpened opened.old.handle.value (λ c. told.new.handle.value ≡ Some c) }
    ensures no { result ≢ 0 → IsUnshared opened.old.handle.value result }
    ensures same { opened.new.handle.value ≡ opened.old.handle.value }
    ensures stays { result ≢ 0 → told.new ≡ told.old }
{
    let Some(quotient) = opened.take(alloc) else {
        return NOT_OPEN;
    };
    let other = another(alloc, &quotient);
    opened.put(alloc, quotient);
    match other {
        Ok(other) => {
            told.put(alloc, other);
            DONE
        }
        Err(_) => MEMORY,
    }
}

/// Closes what is opened: 0, or the number for nothing that is opened.
#[unsafe(no_mangle)]
pub extern "C" fn misere_close(alloc: Global, opened: &mut Opened) -> u32
    ensures closed { opened.new.handle.value ≡ None }
    ensures yes { result ≡ 0 → IsOpened opened.old.handle.value (λ c. Unit {0}) }
    ensures no { result ≢ 0 → IsUnopened opened.old.handle.value result }
{
    match opened.take(alloc) {
        Some(_) => DONE,
        None => NOT_OPEN,
    }
}

/// Tells who wins the position of the heaps, as `misere_outcome` does of bytes. It takes no memory.
#[unsafe(no_mangle)]
pub extern "C" fn misere_opened_outcome(
    alloc: Global,
    opened: &mut Opened,
    heaps: &[u64],
    told: &mut u32,
) -> u32
    ensures yes { result ≡ 0 → IsOpened opened.old.handle.value (TellsOutcome heaps.now told.new) }
    ensures no { result ≢ 0 → IsNoAnswer opened.old.handle.value heaps.now result }
    ensures same { opened.new.handle.value ≡ opened.old.handle.value }
    ensures stays { result ≢ 0 → told.new ≡ told.old }
{
    tell_opened(alloc, opened, Question::Outcome, heaps, told)
}

/// Tells the element of the quotient that is the position's. It takes no memory.
#[unsafe(no_mangle)]
pub extern "C" fn misere_opened_value(
    alloc: Global,
    opened: &mut Opened,
    heaps: &[u64],
    told: &mut u32,
) -> u32
    ensures yes { result ≡ 0 → IsOpened opened.old.handle.value (TellsValue heaps.now told.new) }
    ensures no { result ≢ 0 → IsNoAnswer opened.old.handle.value heaps.now result }
    ensures same { opened.new.handle.value ≡ opened.old.handle.value }
    ensures stays { result ≢ 0 → told.new ≡ told.old }
{
    tell_opened(alloc, opened, Question::Value, heaps, told)
}

/// Tells what to do in the position of the heaps: the first winning move, where there is one. Then
/// the heaps stand rising in their own memory, and it takes no other.
#[unsafe(no_mangle)]
pub extern "C" fn misere_opened_answer(
    alloc: Global,
    opened: &mut Opened,
    heaps: &mut [u64],
    told: &mut MisereAnswer,
) -> u32
    ensures yes { result ≡ 0 → IsOpened opened.old.handle.value (TellsAnswer heaps.old told.new) }
    ensures heaps { result ≡ 0 → IsPermutation heaps.old heaps.new }
    ensures rising { result ≡ 0 → IsNonDecreasing heaps.new }
    ensures no { result ≢ 0 → IsNoAnswer opened.old.handle.value heaps.old result }
    ensures same { opened.new.handle.value ≡ opened.old.handle.value }
    ensures stays { result ≢ 0 → told.new ≡ told.old × heaps.new ≡ heaps.old }
{
    let Some(quotient) = opened.take(alloc) else {
        return NOT_OPEN;
    };
    let answer = answer_in(quotient.certified(), heaps);
    opened.put(alloc, quotient);
    match answer {
        Ok(answer) => {
            *told = answer;
            DONE
        }
        Err(status) => status,
    }
}

/// Tells the outcome of each of many positions, which stand as for `misere_outcomes`. It takes no
/// memory.
#[unsafe(no_mangle)]
pub extern "C" fn misere_opened_outcomes(
    alloc: Global,
    opened: &mut Opened,
    heaps: &[u64],
    ends: &[u64],
    told: &mut [u32],
) -> u32
    ensures yes { result ≡ 0
        → IsOpened opened.old.handle.value (TellAll TellsOutcome heaps.now ends.now told.new) }
    ensures no { result ≢ 0
        → IsNoAnswerToMany opened.old.handle.value heaps.now ends.now (length told.old) result }
    ensures same { opened.new.handle.value ≡ opened.old.handle.value }
    ensures stays { result ≢ 0 → told.new ≡ told.old }
{
    tell_all_opened(alloc, opened, Question::Outcome, heaps, ends, told)
}

/// Tells the element of each of many positions, which stand as for `misere_outcomes`. It takes no
/// memory.
#[unsafe(no_mangle)]
pub extern "C" fn misere_opened_values(
    alloc: Global,
    opened: &mut Opened,
    heaps: &[u64],
    ends: &[u64],
    told: &mut [u32],
) -> u32
    ensures yes { result ≡ 0
        → IsOpened opened.old.handle.value (TellAll TellsValue heaps.now ends.now told.new) }
    ensures no { result ≢ 0
        → IsNoAnswerToMany opened.old.handle.value heaps.now ends.now (length told.old) result }
    ensures same { opened.new.handle.value ≡ opened.old.handle.value }
    ensures stays { result ≢ 0 → told.new ≡ told.old }
{
    tell_all_opened(alloc, opened, Question::Value, heaps, ends, told)
}

/// Tells what to do in each of many positions, which stand as for `misere_outcomes`.
#[unsafe(no_mangle)]
pub extern "C" fn misere_opened_answers(
    alloc: Global,
    opened: &mut Opened,
    heaps: &[u64],
    ends: &[u64],
    told: &mut [MisereAnswer],
) -> u32
    ensures yes { result ≡ 0
        → IsOpened opened.old.handle.value (TellAll TellsAnswer heaps.now ends.now told.new) }
    ensures no { result ≢ 0
        → AreNoAnswers opened.old.handle.value heaps.now ends.now (length told.old) result }
    ensures same { opened.new.handle.value ≡ opened.old.handle.value }
    ensures stays { result ≢ 0 → told.new ≡ told.old }
{
    let Some(quotient) = opened.take(alloc) else {
        return NOT_OPEN;
    };
    let status = answer_all_in(alloc, quotient.certified(), heaps, ends, told);
    opened.put(alloc, quotient);
    status
}
