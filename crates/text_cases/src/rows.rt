// The rows of a case, as words with their fields behind colons. Their conditions always hold.
use crate::words::values_of;
use anyhow::anyhow;
use literals::{Condition, LiteralSet};
use std::alloc::Global;
use tables::{AlternativeRow, RuleRow, WishRow};

// A row of some table.
#[derive(Clone, Copy)]
pub enum Row {
    Rule(RuleRow),
    Wish(WishRow),
    Alternative(AlternativeRow),
    Fit(LiteralSet),
}

fn set_of(plus: &str, minus: &str) -> anyhow::Result<LiteralSet> {
    Ok(LiteralSet {
        plus: plus.parse::<u64>()?,
        minus: minus.parse::<u64>()?,
    })
}

// The rule of these fields, the first being its name.
fn rule_of(fields: &[&str]) -> anyhow::Result<RuleRow> {
    let body = Condition::ALWAYS;
    Ok(match fields {
        ["plain", code] => RuleRow::Plain {
            code: code.parse::<u8>()?,
            body,
        },
        ["constraint"] => RuleRow::Constraint { body },
        ["choice", least, greatest, plus, minus] => {
            // The head is read before the numbers: where both are bad, the message is the head's.
            let head = set_of(plus, minus)?;
            RuleRow::Choice {
                least: least.parse::<u8>()?,
                greatest: greatest.parse::<u8>()?,
                head,
                body,
            }
        }
        _ => return Err(anyhow!("no such row")),
    })
}

// The row of these fields, the first being its name.
fn row_of(fields: &[&str]) -> anyhow::Result<Row> {
    Ok(match fields {
        ["wish", rank] => Row::Wish(WishRow {
            rank: rank.parse::<u8>()?,
            body: Condition::ALWAYS,
        }),
        ["alternative", wish, level] => Row::Alternative(AlternativeRow {
            wish: wish.parse::<usize>()?,
            level: level.parse::<u8>()?,
            condition: Condition::ALWAYS,
        }),
        ["fit", plus, minus] => Row::Fit(set_of(plus, minus)?),
        other => Row::Rule(rule_of(other)?),
    })
}

// The rows of these words.
pub fn rows_of(heap: Global, words: &[&str]) -> anyhow::Result<Vec<Row>> {
    values_of(heap, words, |word| {
        let fields: Vec<&str> = word.split(':').collect(heap)?;
        row_of(fields.as_slice())
    })
}
