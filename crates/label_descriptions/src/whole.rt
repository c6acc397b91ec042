//! The texts of a whole game.
ghost use Rattle.std.specs.Prelude.{◌≡◌, IfOk, length};
ghost use Rattle.std.specs.String.{string_bytes};
ghost use Rattle.dominance_text.specs.Said.{IsInRanges};
ghost use Rattle.label_descriptions.specs.Whole.{head_pieces, head_text, numbers_text, presentation, rank_line, rank_lines, ranks_json, ranks_pieces, ranks_text, relation_of, repeat_pieces, whole_text_for};

use crate::Output;
use crate::lines::Style;
use crate::lists::{all_three, front};
use allocation::Memory;
use dominance_text::DominanceText;
use octal_code::Code;
use std::alloc::{AllocError, Allocator, Global};

/// How the quotient stands to U: it is U, or it lies in U.
fn relation_of(output: Output, all: bool) -> &'static str
    ensures { result.now ≡ relation_of output all }
{
    if all {
        return "=";
    }
    match output {
        Output::Plain | Output::Json => "in",
        Output::Latex => "\\subseteq",
    }
}

/// The monoid U by generators and relations, its P-portion, and the triples of the generators.
fn presentation(output: Output) -> &'static str
    ensures { result.now ≡ presentation output }
{
    match output {
        Output::Plain => {
            "< a,b,h_0,h_1,.. | a^2=1, h_i h_j=h_i b^(j+2) for j<=i, h_i b^(i+1)=b^(2i+3) >\nP = { a, b^(2k+2), b^k h_i for k<=i and k+i odd }\na odd, b weight 1, h_i weight i+2 lead i+1\n"
        }
        Output::Latex => {
            "\\langle a,b,h_{0},h_{1},\\ldots\\mid a^{2}=1$, $h_{i}h_{j}=h_{i}b^{j+2}$ for $j\\le i$, $h_{i}b^{i+1}=b^{2i+3}\\rangle$\\\\\n$\\mathcal{P}=\\{a$, $b^{2k+2}$, $b^{k}h_{i}$ for $k\\le i$ and $k+i$ odd$\\}$\\\\\n$a$ odd, $b$ weight $1$, $h_{i}$ weight $i+2$ lead $i+1$\\\\\n"
        }
        Output::Json => {
            "\"relations\":[[\"a^2\",\"1\"],[\"h_i h_j\",\"h_i b^(j+2) for j<=i\"],[\"h_i b^(i+1)\",\"b^(2i+3)\"]],\"portion\":[\"a\",\"b^(2k+2)\",\"b^k h_i for k<=i and k+i odd\"],\"generators\":{\"a\":\"odd\",\"b\":\"weight 1\",\"h_i\":\"weight i+2 lead i+1\"}"
        }
    }
}

/// The game, how its quotient stands to U, and U, of their texts.
fn head_pieces(
    alloc: Global,
    output: Output,
    code: &str,
    relation: &str,
    monoid: &str,
) -> Result<String, AllocError>
    ensures { IfOk result
        (λ s. string_bytes s ≡ head_pieces output code.now relation.now monoid.now) }
{
    let text = match output {
        Output::Plain => format!(in alloc; "Q({code}) {relation} {monoid}")?,
        Output::Latex => format!(in alloc;
            "\\begin{{flushleft}}\n$\\mathcal{{Q}}(\\mathbf{{{code}}}){relation}{monoid}"
        )?,
        Output::Json => format!(in alloc;
            "{{\"code\":\"{code}\",\"kind\":\"whole\",\"quotient\":\"{relation}\",{monoid}"
        )?,
    };
    Ok(text)
}

/// The game of the code, how its quotient stands to U, and U.
fn head_text(alloc: Global, output: Output, code: &Code, all: bool) -> Result<String, Memory>
    ensures { IfOk result (λ s. string_bytes s ≡ head_text output code.now all) }
{
    let code = code.text(alloc)?;
    let (relation, monoid) = (relation_of(output, all), presentation(output));
    let text = head_pieces(alloc, output, code.as_str(), relation, monoid)?;
    Ok(text)
}

/// The triple of a heap.
fn rank_line(
    alloc: Global,
    style: Style,
    heap: usize,
    odd: u16,
    weight: u16,
    lead: u16,
) -> Result<String, AllocError>
    ensures { IfOk result (λ s. string_bytes s ≡ rank_line style heap odd weight lead) }
{
    let text = match style {
        Style::Plain => format!(in alloc; "heap {heap} odd {odd} weight {weight} lead {lead}\n")?,
        Style::Latex => format!(in alloc; "$\\Phi({heap})=({odd},{weight},{lead})$\\\\\n")?,
    };
    Ok(text)
}

/// Those of the heaps up to the end of the first period.
fn rank_lines<A: Allocator>(
    alloc: Global,
    style: Style,
    text: &DominanceText<A>,
) -> Result<String, AllocError>
    requires weights { length text.now.weights ≡ length text.now.odd }
    requires leads { length text.now.leads ≡ length text.now.odd }
    ensures { IfOk result (λ s. string_bytes s ≡ rank_lines style text.now (length text.now.odd)) }
{
    let mut lines = String::new(alloc);
    for i in 0..text.odd.len() {
        let (weight, lead) = (text.weights[i], text.leads[i]);
        let line = rank_line(alloc, style, i + 1, text.odd[i], weight, lead)?;
        lines.push_str(line.as_str())?;
    }
    Ok(lines)
}

/// Numbers with a comma between each two.
fn numbers_text(alloc: Global, numbers: &[u16]) -> Result<String, AllocError>
    ensures { IfOk result (λ t. string_bytes t ≡ numbers_text numbers.now (length numbers.now)) }
{
    let mut text = String::new(alloc);
    for k in 0..numbers.len() {
        let (front, number) = (front("", ",", k), numbers[k]);
        let item = format!(in alloc; "{front}{number}")?;
        text.push_str(item.as_str())?;
    }
    Ok(text)
}

/// The numbers of the heaps up to the end of the first period, of their texts.
fn ranks_pieces(alloc: Global, odd: &str, weights: &str, leads: &str) -> Result<String, AllocError>
    ensures { IfOk result (λ s. string_bytes s ≡ ranks_pieces odd.now weights.now leads.now) }
{
    let text = format!(in alloc; ",\"odd\":[{odd}],\"weights\":[{weights}],\"leads\":[{leads}]")?;
    Ok(text)
}

/// The numbers of the heaps up to the end of the first period.
fn ranks_json<A: Allocator>(alloc: Global, text: &DominanceText<A>) -> Result<String, AllocError>
    ensures { IfOk result (λ s. string_bytes s ≡ ranks_json text.now) }
{
    let odd = numbers_text(alloc, &text.odd)?;
    let weights = numbers_text(alloc, &text.weights)?;
    let leads = numbers_text(alloc, &text.leads)?;
    ranks_pieces(alloc, odd.as_str(), weights.as_str(), leads.as_str())
}

/// What is said of the heaps up to the end of the first period.
fn ranks_text<A: Allocator>(
    alloc: Global,
    output: Output,
    text: &DominanceText<A>,
) -> Result<String, AllocError>
    requires { IsInRanges text.now }
    ensures { IfOk result (λ s. string_bytes s ≡ ranks_text output text.now) }
{
    match output {
        Output::Plain => rank_lines(alloc, Style::Plain, text),
        Output::Latex => rank_lines(alloc, Style::Latex, text),
        Output::Json => ranks_json(alloc, text),
    }
}

/// How the triples repeat, of these numbers.
fn repeat_pieces(
    alloc: Global,
    output: Output,
    start: u16,
    period: u16,
    rise: u16,
) -> Result<String, AllocError>
    ensures { IfOk result (λ s. string_bytes s ≡ repeat_pieces output start period rise) }
{
    let text = match output {
        Output::Plain => format!(in alloc; "repeat {period} from {start} rise {rise}\n")?,
        Output::Latex => format!(in alloc;
            "$\\Phi(n+{period})=\\Phi(n)+(0,{rise},{rise})$ for $n\\ge{start}$, but a lead of $0$ stays\n\\end{{flushleft}}\n"
        )?,
        Output::Json => format!(in alloc;
            ",\"start\":{start},\"period\":{period},\"rise\":{rise}}}\n"
        )?,
    };
    Ok(text)
}

/// All that is said of the text.
pub(crate) fn text_for<A: Allocator>(
    alloc: Global,
    output: Output,
    text: &DominanceText<A>,
    all: bool,
) -> Result<String, Memory>
    requires { IsInRanges text.now }
    ensures { IfOk result (λ s. string_bytes s ≡ whole_text_for output text.now all) }
{
    let head = head_text(alloc, output, &text.code, all)?;
    let ranks = ranks_text(alloc, output, text)?;
    let repeats = repeat_pieces(alloc, output, text.start, text.period, text.rise)?;
    let whole = all_three(alloc, head.as_str(), ranks.as_str(), repeats.as_str())?;
    Ok(whole)
}
