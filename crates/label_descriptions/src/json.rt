//! A presentation as one object of JSON.
ghost use Rattle.std.specs.Prelude.{◌≡◌, ◌≤◌, IfOk, length};
ghost use Rattle.std.specs.String.{string_bytes};
ghost use Rattle.presentations.specs.declared.TheConstants.{LETTERS};
ghost use Rattle.label_descriptions.specs.Json.{head_json, head_pieces, json_text, monoid_json, monoid_pieces, words_json};

use crate::lists::{
    all_three, cycles_text, generators_text, heap_words_text, order_text, relations_text,
    words_text,
};
use allocation::Memory;
use presentations::LETTERS;
use presented_tables::Presented;
use relations::Notation;
use std::alloc::{AllocError, Allocator, Global};

/// The code, the heaps, the period and the order, of their texts.
fn head_pieces(
    alloc: Global,
    code: &str,
    heaps: u16,
    period: u16,
    order: &str,
) -> Result<String, AllocError>
    ensures { IfOk result (λ t. string_bytes t ≡ head_pieces code.now heaps period order.now) }
{
    let text = format!(in alloc;
        "{{\"code\":\"{code}\",\"kind\":\"presented\",\"heaps\":{heaps},\"period\":{period},\"order\":{order}"
    )?;
    Ok(text)
}

/// The code, the heaps, the period and the order.
fn head_json<A: Allocator>(
    alloc: Global,
    said: &Presented<A>,
    order: Option<usize>,
) -> Result<String, Memory>
    ensures { IfOk result (λ t. string_bytes t ≡ head_json said.now order) }
{
    let code = said.code.text(alloc)?;
    let order = order_text(alloc, Notation::Json, order)?;
    let text = head_pieces(
        alloc,
        code.as_str(),
        said.heaps,
        said.period,
        order.as_str(),
    )?;
    Ok(text)
}

/// The letters and the relations, the portion and the cycles, of their texts.
fn monoid_pieces(
    alloc: Global,
    generators: &str,
    relations: &str,
    portion: &str,
    cycles: &str,
) -> Result<String, AllocError>
    ensures { IfOk result (λ t. string_bytes t
        ≡ monoid_pieces generators.now relations.now portion.now cycles.now) }
{
    let text = format!(in alloc;
        ",\"generators\":{{{generators}}},\"relations\":[{relations}],\"portion\":[{portion}],\"cycles\":{{{cycles}}}"
    )?;
    Ok(text)
}

/// The letters and the relations, the portion and the cycles.
fn monoid_json<A: Allocator>(alloc: Global, said: &Presented<A>) -> Result<String, AllocError>
    requires letters { length said.now.letters ≤ LETTERS }
    requires cycles { length said.now.cycles ≤ LETTERS }
    ensures { IfOk result (λ t. string_bytes t ≡ monoid_json said.now) }
{
    let generators = generators_text(alloc, Notation::Json, &said.letters)?;
    let relations = relations_text(alloc, Notation::Json, LETTERS as u8, said.basis.rules())?;
    let portion = words_text(alloc, Notation::Json, LETTERS as u8, &said.portion)?;
    let cycles = cycles_text(alloc, Notation::Json, &said.cycles)?;
    monoid_pieces(
        alloc,
        generators.as_str(),
        relations.as_str(),
        portion.as_str(),
        cycles.as_str(),
    )
}

/// The word of each heap of the list.
fn words_json<A: Allocator>(alloc: Global, said: &Presented<A>) -> Result<String, AllocError>
    ensures { IfOk result (λ t. string_bytes t ≡ words_json said.now) }
{
    let words = heap_words_text(alloc, Notation::Json, LETTERS as u8, &said.words)?;
    let text = format!(in alloc; ",\"words\":[{words}]}}\n")?;
    Ok(text)
}

/// The whole object.
pub(crate) fn json_text<A: Allocator>(
    alloc: Global,
    said: &Presented<A>,
    order: Option<usize>,
) -> Result<String, Memory>
    requires letters { length said.now.letters ≤ LETTERS }
    requires cycles { length said.now.cycles ≤ LETTERS }
    ensures { IfOk result (λ t. string_bytes t ≡ json_text said.now order) }
{
    let head = head_json(alloc, said, order)?;
    let monoid = monoid_json(alloc, said)?;
    let words = words_json(alloc, said)?;
    let text = all_three(alloc, head.as_str(), monoid.as_str(), words.as_str())?;
    Ok(text)
}
