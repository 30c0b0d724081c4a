//! Queries: their items, filter, groups, order and limit.
ghost use Rattle.std.specs.Prelude.{◌≡◌, ◌≤◌, length, IfOk, IfSome, option_map};
ghost use Rattle.dk_sql.specs.Readers.{Gives};
ghost use Rattle.dk_sql.specs.Queries.{fold_kind_of, fold_after, star_after, folded_at, aggregated_at, aggregate_at, plain_at, item_at, items_at, filter_at, by_at, order_after, key_at, limit_at, query_at};

use crate::expressions::{MAX_NUMBER, expr};
use crate::fault::Stop;
use crate::lists::{ANY, Member, Scope, list};
use crate::tokens::{
    is_same_word, keyword, keyword_after, mark, mark_after, number, place, word_after,
};
use dk_syntax::{Expr, FoldKind, Item, Items, Key, Query, Spot};
use dk_values::List;

/// The aggregate whose word this is, if it is one.
fn fold_kind_of(word: &[u8]) -> Option<FoldKind>
    ensures { result ≡ fold_kind_of word.now }
{
    if is_same_word(word, b"count") {
        Some(FoldKind::Count)
    } else if is_same_word(word, b"sum") {
        Some(FoldKind::Sum)
    } else if is_same_word(word, b"min") {
        Some(FoldKind::Min)
    } else if is_same_word(word, b"max") {
        Some(FoldKind::Max)
    } else {
        None
    }
}

/// An aggregate's word, if one stands next, and the rest.
fn fold_after(text: &[u8]) -> Option<(FoldKind, &[u8])>
    ensures exact { option_map (λ x. (x.0, x.1.now)) result ≡ fold_after text.now }
    ensures within { IfSome result (λ x. length x.1.now ≤ length text.now) }
{
    match word_after(text) {
        None => None,
        Some((word, rest)) => match fold_kind_of(word) {
            Some(kind) => Some((kind, rest)),
            None => None,
        },
    }
}

/// The rest behind the sign of `count(*)`, if it stands next.
fn star_after(kind: FoldKind, text: &[u8]) -> Option<&[u8]>
    ensures exact { option_map (λ x. x.now) result ≡ star_after kind text.now }
    ensures within { IfSome result (λ x. length x.now ≤ length text.now) }
{
    match kind {
        FoldKind::Count => mark_after(text, b'*'),
        _ => None,
    }
}

/// What an aggregate is over, from behind its first parenthesis on.
#[tactic(auto, unfolding(crate::specs::Queries::folded_at))]
fn folded(scope: Scope, kind: FoldKind, at: u32, text: &[u8]) -> Result<(Item, &[u8]), Stop>
    requires { length text.now ≤ scope.whole }
    ensures exact { Gives (λ x. (x.0, x.1.now)) result (folded_at scope.whole kind at text.now) }
    ensures within { IfOk result (λ x. length x.1.now ≤ length text.now) }
{
    let (of, rest) = expr(scope, text)?;
    let rest = mark(rest, b')')?;
    Ok((Item::Fold { kind, at, of }, rest))
}

/// What an aggregate is over, rows or an expression, from behind its first parenthesis on.
fn aggregated(scope: Scope, kind: FoldKind, at: u32, text: &[u8]) -> Result<(Item, &[u8]), Stop>
    requires { length text.now ≤ scope.whole }
    ensures exact { Gives (λ x. (x.0, x.1.now)) result (aggregated_at scope.whole kind at text.now) }
    ensures within { IfOk result (λ x. length x.1.now ≤ length text.now) }
{
    match star_after(kind, text) {
        None => folded(scope, kind, at, text),
        Some(rest) => {
            let rest = mark(rest, b')')?;
            Ok((Item::CountAll { at }, rest))
        }
    }
}

/// An aggregate, from behind its word on.
fn aggregate(scope: Scope, kind: FoldKind, at: u32, text: &[u8]) -> Result<(Item, &[u8]), Stop>
    requires { length text.now ≤ scope.whole }
    ensures exact { Gives (λ x. (x.0, x.1.now)) result (aggregate_at scope.whole kind at text.now) }
    ensures within { IfOk result (λ x. length x.1.now ≤ length text.now) }
{
    let inside = mark(text, b'(')?;
    aggregated(scope, kind, at, inside)
}

fn plain(scope: Scope, text: &[u8]) -> Result<(Item, &[u8]), Stop>
    requires { length text.now ≤ scope.whole }
    ensures exact { Gives (λ x. (x.0, x.1.now)) result (plain_at scope.whole text.now) }
    ensures within { IfOk result (λ x. length x.1.now ≤ length text.now) }
{
    let (expr, rest) = expr(scope, text)?;
    Ok((Item::Plain(expr), rest))
}

/// An item of a query.
impl Member for Item {
    ghost found = { item_at };

    fn read(scope: Scope, text: &[u8]) -> Result<(Item, &[u8]), Stop> {
        match fold_after(text) {
            None => plain(scope, text),
            Some((kind, rest)) => aggregate(scope, kind, place(scope.whole, text), rest),
        }
    }
}

/// `*`, or a list of items.
fn items(scope: Scope, text: &[u8]) -> Result<(Items, &[u8]), Stop>
    requires { length text.now ≤ scope.whole }
    ensures exact { Gives (λ x. (x.0, x.1.now)) result (items_at scope.whole text.now) }
    ensures within { IfOk result (λ x. length x.1.now ≤ length text.now) }
{
    match mark_after(text, b'*') {
        None => {
            let (items, rest) = list::<Item>(scope, ANY, text)?;
            Ok((Items::Listed(items), rest))
        }
        Some(rest) => {
            let at = place(scope.whole, text);
            Ok((Items::All { at }, rest))
        }
    }
}

/// The condition behind WHERE, if there is one.
pub fn filter(scope: Scope, text: &[u8]) -> Result<(Option<Expr>, &[u8]), Stop>
    requires { length text.now ≤ scope.whole }
    ensures exact { Gives (λ x. (x.0, x.1.now)) result (filter_at scope.whole text.now) }
    ensures within { IfOk result (λ x. length x.1.now ≤ length text.now) }
{
    match keyword_after(text, b"where") {
        None => Ok((None, text)),
        Some(rest) => {
            let (expr, rest) = expr(scope, rest)?;
            Ok((Some(expr), rest))
        }
    }
}

/// The list behind this word and BY, if the word stands next, or else an empty one.
fn by<'a, M: Member>(scope: Scope, word: &[u8], text: &'a [u8]) -> Result<(List<M>, &'a [u8]), Stop>
    requires { length text.now ≤ scope.whole }
    ensures exact { Gives (λ x. (x.0, x.1.now)) result (by_at word.now (M.found scope.whole) text.now) }
    ensures within { IfOk result (λ x. length x.1.now ≤ length text.now) }
{
    match keyword_after(text, word) {
        None => Ok((List::new(scope.alloc), text)),
        Some(rest) => {
            let rest = keyword(rest, b"by")?;
            list(scope, ANY, rest)
        }
    }
}

/// Whether an order is descending.
fn order_after(text: &[u8]) -> (bool, &[u8])
    ensures exact { (result.0, result.1.now) ≡ order_after text.now }
    ensures within { length result.1.now ≤ length text.now }
{
    match keyword_after(text, b"desc") {
        Some(rest) => (true, rest),
        None => match keyword_after(text, b"asc") {
            Some(rest) => (false, rest),
            None => (false, text),
        },
    }
}

/// A column of ORDER BY.
impl Member for Key {
    ghost found = { key_at };

    fn read(scope: Scope, text: &[u8]) -> Result<(Key, &[u8]), Stop> {
        let (column, rest) = Spot::read(scope, text)?;
        let (descending, rest) = order_after(rest);
        Ok((Key { column, descending }, rest))
    }
}

/// The number behind LIMIT, if there is one.
fn limit(text: &[u8]) -> Result<(Option<u64>, &[u8]), Stop>
    ensures exact { Gives (λ x. (x.0, x.1.now)) result (limit_at text.now) }
    ensures within { IfOk result (λ x. length x.1.now ≤ length text.now) }
{
    match keyword_after(text, b"limit") {
        None => Ok((None, text)),
        Some(rest) => {
            let (n, rest) = number(rest, MAX_NUMBER)?;
            Ok((Some(n), rest))
        }
    }
}

/// A query, from behind SELECT on.
#[tactic(auto, unfolding(crate::specs::Queries::query_at))]
pub fn query(scope: Scope, text: &[u8]) -> Result<(Query, &[u8]), Stop>
    requires { length text.now ≤ scope.whole }
    ensures exact { Gives (λ x. (x.0, x.1.now)) result (query_at scope.whole text.now) }
    ensures within { IfOk result (λ x. length x.1.now ≤ length text.now) }
{
    let (items, rest) = items(scope, text)?;
    let rest = keyword(rest, b"from")?;
    let (table, rest) = Spot::read(scope, rest)?;
    let (filter, rest) = filter(scope, rest)?;
    let (groups, rest) = by::<Spot>(scope, b"group", rest)?;
    let (keys, rest) = by::<Key>(scope, b"order", rest)?;
    let (limit, rest) = limit(rest)?;
    let query = Query {
        items,
        table,
        filter,
        groups,
        keys,
        limit,
    };
    Ok((query, rest))
}
