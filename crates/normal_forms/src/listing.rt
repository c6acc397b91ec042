//! Standard words with few letters, of which nothing is promised, and a search in them.
ghost use Rattle.normal_forms.specs.RuleTables.{IsRuleTable};

use crate::rule::{Exponents, Rule};
use crate::table::RuleTable;
use allocation::Memory;
use presentations::LETTERS;
use std::alloc::Allocator;

/// The place of the last letter of the word, 0 if it has none.
fn last_letter(word: &Exponents) -> usize {
    let mut last = 0;
    for i in 0..LETTERS {
        if word[i] > 0 {
            last = i;
        }
    }
    last
}

/// Adds the standard words that the word becomes with its last letter or a later one more.
fn add_longer<A: Allocator>(
    rules: &[Rule],
    table: &RuleTable<A>,
    letters: usize,
    list: &mut Vec<Exponents, A>,
    word: &Exponents,
) -> Result<(), Memory>
    requires { IsRuleTable rules.now table.now }
{
    for i in last_letter(word)..letters.min(LETTERS) {
        let mut more = *word;
        more[i] = more[i].saturating_add(1);
        if table.first_rule(rules, &more).is_none() {
            list.push(more)?;
        }
    }
    Ok(())
}

/// The standard words in the first letters that have the fewest letters, about so many, in order of their exponents.
pub(crate) fn standard_words<A: Allocator>(
    alloc: A,
    rules: &[Rule],
    table: &RuleTable<A>,
    letters: usize,
    most: usize,
) -> Result<Vec<Exponents, A>, Memory>
    requires { IsRuleTable rules.now table.now }
{
    let mut list = Vec::new(alloc);
    list.push([0; LETTERS])?;
    for x in 0..most {
        if list.len() >= most {
            break;
        }
        let Some(word) = list.get(x).copied() else {
            break;
        };
        add_longer(rules, table, letters, &mut list, &word)?;
    }
    list.sort_unstable();
    Ok(list)
}

/// Where the word stands in the ordered list, or would.
pub(crate) fn place(list: &[Exponents], word: &Exponents) -> usize {
    let mut low: usize = 0;
    let mut high = list.len();
    for _ in 0..64 {
        if low >= high {
            break;
        }
        let middle = low + (high - low) / 2;
        match list.get(middle) {
            Some(there) if there < word => low = middle + 1,
            _ => high = middle,
        }
    }
    low
}
