//! Expressions, by precedence: each rule of the grammar reads its operands by the rule below it.
//!
//! What nests in parentheses, behind NOT or behind a sign is read by recursion, at most [`MAX_LEVELS`] deep.
ghost use Rattle.std.specs.Prelude.{◌≡◌, ◌<◌, ◌≤◌, ◌^◌, ℕ, length, IfOk, IfSome, option_map, Ok};
ghost use Rattle.dk_sql.specs.Readers.{Gives};
ghost use Rattle.dk_sql.specs.Expressions.{constant_of, constant_at, positive_at, negative_at, quoted_at, unsigned_at, value_at, literal_at, word_node_at, leaf_node_at, leaf_at, expr_of, point_of, at_text, spend, less_in, greater_in, comparison_in, as_op, sum_after, operator_after, operator_at, operand_of, height, two, operands_at, chain_at, maybe_not, null_at, is_at, maybe_null, prefix_node, prefixed_in, negative_of, enclosed_in, rule_at, inner_at, expr_at};

use crate::fault::Stop;
use crate::lists::Scope;
use crate::tokens::{
    fault, is_number_next, is_same_word, is_word_next, keyword, keyword_after, mark, mark_after,
    name, number, place, skip_blanks, text, word,
};
use dk_syntax::{Boxed, Expr, Node, Op};
use dk_values::{OutOfMemory, Value};
use std::alloc::Global;

/// How many parentheses, NOT and `-` may be open at a place of an expression.
pub const MAX_LEVELS: u32 = 64;

/// How many operators an expression may have.
pub const MAX_OPERATORS: u32 = 1_000;

/// The largest number that a text may write.
pub const MAX_NUMBER: u64 = (1 << 63) - 1;

/// What is left of a text, and how many operators of the expression may still come.
#[derive(Clone, Copy)]
struct Cursor<'a> {
    text: &'a [u8],
    operators: u32,
}

/// A rule of the grammar, by what an expression of it is made with.
#[derive(Clone, Copy)]
enum Rule {
    Or,
    And,
    Not,
    Test,
    Added,
    Product,
    Unary,
}

/// An operator of two operands, and its place.
#[derive(Clone, Copy)]
struct Operator {
    at: u32,
    op: Op,
}

/// The constant that a word is, if it is one.
fn constant_of(word: &[u8]) -> Option<Value>
    ensures { result ≡ constant_of word.now }
{
    if is_same_word(word, b"true") {
        Some(Value::Bool(true))
    } else if is_same_word(word, b"false") {
        Some(Value::Bool(false))
    } else if is_same_word(word, b"null") {
        Some(Value::Null)
    } else {
        None
    }
}

/// TRUE, FALSE or NULL.
fn constant(text: &[u8]) -> Result<(Value, &[u8]), Stop>
    ensures exact { Gives (λ x. (x.0, x.1.now)) result (constant_at text.now) }
    ensures within { IfOk result (λ x. length x.1.now ≤ length text.now) }
{
    let (word, rest) = word(text)?;
    match constant_of(word) {
        Some(value) => Ok((value, rest)),
        None => Err(fault(text)),
    }
}

fn positive(text: &[u8]) -> Result<(Value, &[u8]), Stop>
    ensures exact { Gives (λ x. (x.0, x.1.now)) result (positive_at text.now) }
    ensures within { IfOk result (λ x. length x.1.now ≤ length text.now) }
{
    let (n, rest) = number(text, MAX_NUMBER)?;
    Ok((Value::Big(n as i64), rest))
}

/// A number, behind its sign.
fn negative(text: &[u8]) -> Result<(Value, &[u8]), Stop>
    ensures exact { Gives (λ x. (x.0, x.1.now)) result (negative_at text.now) }
    ensures within { IfOk result (λ x. length x.1.now ≤ length text.now) }
{
    let (n, rest) = number(text, 1 << 63)?;
    Ok((Value::Big((-i128::from(n)) as i64), rest))
}

fn quoted(alloc: Global, bytes: &[u8]) -> Result<(Value, &[u8]), Stop>
    ensures exact { Gives (λ x. (x.0, x.1.now)) result (quoted_at bytes.now) }
    ensures within { IfOk result (λ x. length x.1.now ≤ length bytes.now) }
{
    let (quoted, rest) = text(alloc, bytes)?;
    Ok((Value::Text(quoted), rest))
}

/// A literal without a sign.
fn unsigned_value(alloc: Global, text: &[u8]) -> Result<(Value, &[u8]), Stop>
    ensures exact { Gives (λ x. (x.0, x.1.now)) result (unsigned_at text.now) }
    ensures within { IfOk result (λ x. length x.1.now ≤ length text.now) }
{
    if is_number_next(text) {
        positive(text)
    } else if is_word_next(text) {
        constant(text)
    } else {
        quoted(alloc, text)
    }
}

/// A literal, which may have a sign if it is a number.
fn value(alloc: Global, text: &[u8]) -> Result<(Value, &[u8]), Stop>
    ensures exact { Gives (λ x. (x.0, x.1.now)) result (value_at text.now) }
    ensures within { IfOk result (λ x. length x.1.now ≤ length text.now) }
{
    match mark_after(text, b'-') {
        None => unsigned_value(alloc, text),
        Some(rest) => negative(rest),
    }
}

/// A literal with its place.
pub fn literal(scope: Scope, text: &[u8]) -> Result<(Expr, &[u8]), Stop>
    requires { length text.now ≤ scope.whole }
    ensures exact { Gives (λ x. (x.0, x.1.now)) result (literal_at scope.whole text.now) }
    ensures within { IfOk result (λ x. length x.1.now ≤ length text.now) }
{
    let at = place(scope.whole, text);
    let (value, rest) = value(scope.alloc, text)?;
    let node = Node::Lit(value);
    Ok((Expr { at, node }, rest))
}

/// A constant or a column, where a word stands next.
fn word_node(alloc: Global, text: &[u8]) -> Result<(Node, &[u8]), Stop>
    ensures exact { Gives (λ x. (x.0, x.1.now)) result (word_node_at text.now) }
    ensures within { IfOk result (λ x. length x.1.now ≤ length text.now) }
{
    let (word, rest) = word(text)?;
    match constant_of(word) {
        Some(value) => Ok((Node::Lit(value), rest)),
        None => {
            let (name, rest) = name(alloc, text)?;
            Ok((Node::Col(name), rest))
        }
    }
}

/// A literal without a sign, or a column.
fn leaf_node(alloc: Global, text: &[u8]) -> Result<(Node, &[u8]), Stop>
    ensures exact { Gives (λ x. (x.0, x.1.now)) result (leaf_node_at text.now) }
    ensures within { IfOk result (λ x. length x.1.now ≤ length text.now) }
{
    if is_word_next(text) {
        return word_node(alloc, text);
    }
    let (value, rest) = unsigned_value(alloc, text)?;
    Ok((Node::Lit(value), rest))
}

/// A literal without a sign, or a column, with its place.
fn leaf<'a>(scope: Scope, cursor: Cursor<'a>) -> Result<(Expr, Cursor<'a>), Stop>
    requires { length cursor.text.now ≤ scope.whole }
    ensures exact { Gives (λ x. (x.0, point_of x.1)) result (leaf_at scope.whole (point_of cursor.entry)) }
    ensures within { IfOk result (λ x. length x.1.text.now ≤ length cursor.entry.text.now) }
    ensures fewer { IfOk result (λ x. x.1.operators ≤ cursor.entry.operators) }
{
    let at = place(scope.whole, cursor.text);
    let (node, text) = leaf_node(scope.alloc, cursor.text)?;
    Ok((
        Expr { at, node },
        Cursor {
            text,
            operators: cursor.operators,
        },
    ))
}

/// Takes an operator, behind which this rest stands.
fn spend<'a>(cursor: Cursor<'a>, rest: &'a [u8]) -> Result<Cursor<'a>, Stop>
    ensures exact { Gives point_of result (spend (point_of cursor.entry) rest.now) }
    ensures behind { IfOk result (λ x. x.text.now ≡ rest.now) }
    ensures fewer { IfOk result (λ x. x.operators < cursor.entry.operators) }
{
    if cursor.operators == 0 {
        return Err(fault(cursor.text));
    }
    Ok(Cursor {
        text: rest,
        operators: cursor.operators - 1,
    })
}

/// The comparison that goes on behind `<`.
fn less(text: &[u8]) -> (Op, &[u8])
    ensures exact { (result.0, result.1.now) ≡ less_in text.now }
    ensures within { length result.1.now ≤ length text.now }
{
    match text {
        [b'>', rest @ ..] => (Op::Ne, rest),
        [b'=', rest @ ..] => (Op::Le, rest),
        _ => (Op::Lt, text),
    }
}

/// The comparison that goes on behind `>`.
fn greater(text: &[u8]) -> (Op, &[u8])
    ensures exact { (result.0, result.1.now) ≡ greater_in text.now }
    ensures within { length result.1.now ≤ length text.now }
{
    match text {
        [b'=', rest @ ..] => (Op::Ge, rest),
        _ => (Op::Gt, text),
    }
}

/// The comparison in front.
fn comparison(text: &[u8]) -> Option<(Op, &[u8])>
    ensures exact { option_map (λ x. (x.0, x.1.now)) result ≡ comparison_in text.now }
    ensures within { IfSome result (λ x. length x.1.now ≤ length text.now) }
{
    match text {
        [b'=', rest @ ..] => Some((Op::Eq, rest)),
        [b'<', rest @ ..] => Some(less(rest)),
        [b'>', rest @ ..] => Some(greater(rest)),
        _ => None,
    }
}

/// This operator, where its token was found.
fn as_op(op: Op, rest: Option<&[u8]>) -> Option<(Op, &[u8])>
    ensures exact { option_map (λ x. (x.0, x.1.now)) result ≡ as_op op (option_map (λ x. x.now) rest.entry) }
    ensures same { option_map (λ x. x.1.now) result ≡ option_map (λ x. x.now) rest.entry }
{
    match rest {
        Some(rest) => Some((op, rest)),
        None => None,
    }
}

/// `+` or `-`.
fn sum_after(text: &[u8]) -> Option<(Op, &[u8])>
    ensures exact { option_map (λ x. (x.0, x.1.now)) result ≡ sum_after text.now }
    ensures within { IfSome result (λ x. length x.1.now ≤ length text.now) }
{
    match mark_after(text, b'+') {
        Some(rest) => Some((Op::Add, rest)),
        None => as_op(Op::Sub, mark_after(text, b'-')),
    }
}

/// The operator of a rule, if it stands next.
fn operator_after(rule: Rule, text: &[u8]) -> Option<(Op, &[u8])>
    ensures exact { option_map (λ x. (x.0, x.1.now)) result ≡ operator_after rule text.now }
    ensures within { IfSome result (λ x. length x.1.now ≤ length text.now) }
{
    match rule {
        Rule::Or => as_op(Op::Or, keyword_after(text, b"or")),
        Rule::And => as_op(Op::And, keyword_after(text, b"and")),
        Rule::Test => comparison(skip_blanks(text)),
        Rule::Added => sum_after(text),
        Rule::Product => as_op(Op::Mul, mark_after(text, b'*')),
        Rule::Not | Rule::Unary => None,
    }
}

/// Takes the operator of a rule with its place, if it stands next.
fn take_operator<'a>(
    scope: Scope,
    rule: Rule,
    cursor: Cursor<'a>,
) -> Result<Option<(Operator, Cursor<'a>)>, Stop>
    requires { length cursor.text.now ≤ scope.whole }
    ensures exact { Gives (option_map (λ x. (x.0, point_of x.1))) result
        (operator_at scope.whole rule (point_of cursor.entry)) }
    ensures within { IfOk result (λ found. IfSome found (λ x. length x.1.text.now ≤ length cursor.entry.text.now)) }
    ensures fewer { IfOk result (λ found. IfSome found (λ x. x.1.operators < cursor.entry.operators)) }
{
    match operator_after(rule, cursor.text) {
        None => Ok(None),
        Some((op, rest)) => {
            let at = place(scope.whole, cursor.text);
            let next = spend(cursor, rest)?;
            Ok(Some((Operator { at, op }, next)))
        }
    }
}

/// An operator over its operands.
fn two(scope: Scope, operator: Operator, left: Expr, right: Expr) -> Result<Expr, Stop>
    ensures { Gives (λ x. x) result (Ok (two operator left right)) }
{
    let node = Node::Two {
        op: operator.op,
        left: Boxed::new(scope.alloc, left)?,
        right: Boxed::new(scope.alloc, right)?,
    };
    Ok(Expr {
        at: operator.at,
        node,
    })
}

/// NOT and what may be negated stand next, or only the latter.
fn maybe_not(text: &[u8]) -> (bool, &[u8])
    ensures exact { (result.0, result.1.now) ≡ maybe_not text.now }
    ensures within { length result.1.now ≤ length text.now }
{
    match keyword_after(text, b"not") {
        None => (false, text),
        Some(rest) => (true, rest),
    }
}

/// NULL, or NOT NULL.
#[tactic(auto, unfolding(crate::specs::Expressions::null_at))]
fn null(text: &[u8]) -> Result<(bool, &[u8]), Stop>
    ensures exact { Gives (λ x. (x.0, x.1.now)) result (null_at text.now) }
    ensures within { IfOk result (λ x. length x.1.now ≤ length text.now) }
{
    let (negated, rest) = maybe_not(text);
    let rest = keyword(rest, b"null")?;
    Ok((negated, rest))
}

/// A test of null, behind IS.
#[tactic(auto, unfolding(crate::specs::Expressions::is_at))]
fn is<'a>(
    scope: Scope,
    left: Expr,
    cursor: Cursor<'a>,
    rest: &'a [u8],
) -> Result<(Expr, Cursor<'a>), Stop>
    requires { length cursor.text.now ≤ scope.whole }
    ensures exact { Gives (λ x. (x.0, point_of x.1)) result (is_at scope.whole left (point_of cursor.entry) rest.now) }
    ensures within { IfOk result (λ x. length x.1.text.now ≤ length rest.now) }
    ensures fewer { IfOk result (λ x. x.1.operators ≤ cursor.entry.operators) }
{
    let at = place(scope.whole, cursor.text);
    let next = spend(cursor, rest)?;
    let (negated, text) = null(next.text)?;
    let of = Boxed::new(scope.alloc, left)?;
    let node = Node::IsNull { of, negated };
    Ok((
        Expr { at, node },
        Cursor {
            text,
            operators: next.operators,
        },
    ))
}

/// A test of null, if one stands next.
fn maybe_null<'a>(scope: Scope, left: Expr, cursor: Cursor<'a>) -> Result<(Expr, Cursor<'a>), Stop>
    requires { length cursor.text.now ≤ scope.whole }
    ensures exact { Gives (λ x. (x.0, point_of x.1)) result (maybe_null scope.whole left (point_of cursor.entry)) }
    ensures within { IfOk result (λ x. length x.1.text.now ≤ length cursor.entry.text.now) }
    ensures fewer { IfOk result (λ x. x.1.operators ≤ cursor.entry.operators) }
{
    match keyword_after(cursor.text, b"is") {
        None => Ok((left, cursor)),
        Some(rest) => is(scope, left, cursor, rest),
    }
}

/// A number with a sign, behind the sign.
#[tactic(auto, unfolding(crate::specs::Expressions::negative_of))]
fn negative_number<'a>(
    scope: Scope,
    cursor: Cursor<'a>,
    rest: &'a [u8],
) -> Result<(Expr, Cursor<'a>), Stop>
    requires { length cursor.text.now ≤ scope.whole }
    ensures exact { Gives (λ x. (x.0, point_of x.1)) result
        (negative_of scope.whole (point_of cursor.entry) rest.now) }
    ensures within { IfOk result (λ x. length x.1.text.now ≤ length rest.now) }
    ensures fewer { IfOk result (λ x. x.1.operators ≤ cursor.entry.operators) }
{
    let at = place(scope.whole, cursor.text);
    let (value, text) = negative(rest)?;
    let node = Node::Lit(value);
    Ok((
        Expr { at, node },
        Cursor {
            text,
            operators: cursor.operators,
        },
    ))
}

/// The rule of a rule's operands.
fn operand_of(rule: Rule) -> Rule
    ensures { result ≡ operand_of rule }
{
    match rule {
        Rule::Or => Rule::And,
        Rule::And => Rule::Not,
        Rule::Not => Rule::Test,
        Rule::Test => Rule::Added,
        Rule::Added => Rule::Product,
        Rule::Product | Rule::Unary => Rule::Unary,
    }
}

/// NOT or a sign over its operand.
fn prefix_node(scope: Scope, rule: Rule, of: Expr) -> Result<Node, Stop>
    ensures { Gives (λ x. x) result (Ok (prefix_node rule of)) }
{
    let of = Boxed::new(scope.alloc, of)?;
    match rule {
        Rule::Not => Ok(Node::Not(of)),
        _ => Ok(Node::Neg(of)),
    }
}

/// An expression of a rule, with so many levels left.
#[cycle(expr)]
fn read<'a>(
    scope: Scope,
    levels: u32,
    rule: Rule,
    cursor: Cursor<'a>,
) -> Result<(Expr, Cursor<'a>), Stop>
    requires { length cursor.text.now ≤ scope.whole }
    ensures exact { Gives (λ x. (x.0, point_of x.1)) result
        (rule_at scope.whole levels rule (point_of cursor.entry)) }
    ensures within { IfOk result (λ x. length x.1.text.now ≤ length cursor.entry.text.now) }
    ensures fewer { IfOk result (λ x. x.1.operators ≤ cursor.entry.operators) }
{
    match rule {
        Rule::Or | Rule::And | Rule::Added | Rule::Product => chain(scope, levels, rule, cursor),
        Rule::Not => negation(scope, levels, cursor),
        Rule::Test => test(scope, levels, cursor),
        Rule::Unary => unary(scope, levels, cursor),
    }
}

/// What nests one level deeper, behind the token that opens the level.
#[cycle(expr)]
fn nested<'a>(
    scope: Scope,
    levels: u32,
    rule: Rule,
    opening: &'a [u8],
    cursor: Cursor<'a>,
) -> Result<(Expr, Cursor<'a>), Stop>
    requires { length cursor.text.now ≤ scope.whole }
    ensures exact { Gives (λ x. (x.0, point_of x.1)) result
        (inner_at scope.whole levels rule opening.now (point_of cursor.entry)) }
    ensures within { IfOk result (λ x. length x.1.text.now ≤ length cursor.entry.text.now) }
    ensures fewer { IfOk result (λ x. x.1.operators ≤ cursor.entry.operators) }
{
    if levels == 0 {
        return Err(fault(opening));
    }
    read(scope, levels - 1, rule, cursor)
}

/// An operand, and more of them behind operators.
#[cycle(expr)]
#[tactic(auto, unfolding(crate::specs::Expressions::chain_at))]
fn chain<'a>(
    scope: Scope,
    levels: u32,
    rule: Rule,
    cursor: Cursor<'a>,
) -> Result<(Expr, Cursor<'a>), Stop>
    requires whole { length cursor.text.now ≤ scope.whole }
    requires above { 0 < height rule }
    ensures exact { Gives (λ x. (x.0, point_of x.1)) result
        (chain_at scope.whole rule (rule_at scope.whole levels (operand_of rule)) (point_of cursor.entry)) }
    ensures within { IfOk result (λ x. length x.1.text.now ≤ length cursor.entry.text.now) }
    ensures fewer { IfOk result (λ x. x.1.operators ≤ cursor.entry.operators) }
{
    let (first, next) = read(scope, levels, operand_of(rule), cursor)?;
    operands(scope, levels, rule, first, next)
}

/// The operands that follow, each behind an operator.
#[cycle(expr)]
fn operands<'a>(
    scope: Scope,
    levels: u32,
    rule: Rule,
    first: Expr,
    cursor: Cursor<'a>,
) -> Result<(Expr, Cursor<'a>), Stop>
    requires whole { length cursor.text.now ≤ scope.whole }
    requires above { 0 < height rule }
    ensures exact { Gives (λ x. (x.0, point_of x.1)) result
        (operands_at scope.whole rule (rule_at scope.whole levels (operand_of rule)) cursor.entry.operators first
        (point_of cursor.entry)) }
    ensures within { IfOk result (λ x. length x.1.text.now ≤ length cursor.entry.text.now) }
    ensures fewer { IfOk result (λ x. x.1.operators ≤ cursor.entry.operators) }
{
    let mut left = first;
    let mut here = cursor;
    'operands: while let Some((operator, next)) = take_operator(scope, rule, here)? {
        let (right, behind) = read(scope, levels, operand_of(rule), next)?;
        left = two(scope, operator, left, right)?;
        here = behind;
    }
    Ok((left, here))
}

/// One or two operands with a comparison, or a test of null.
#[cycle(expr)]
#[tactic(auto, unfolding(crate::specs::Expressions::test_in))]
fn test<'a>(scope: Scope, levels: u32, cursor: Cursor<'a>) -> Result<(Expr, Cursor<'a>), Stop>
    requires { length cursor.text.now ≤ scope.whole }
    ensures exact { Gives (λ x. (x.0, point_of x.1)) result
        (rule_at scope.whole levels Rule.Test (point_of cursor.entry)) }
    ensures within { IfOk result (λ x. length x.1.text.now ≤ length cursor.entry.text.now) }
    ensures fewer { IfOk result (λ x. x.1.operators ≤ cursor.entry.operators) }
{
    let (left, here) = read(scope, levels, Rule::Added, cursor)?;
    match take_operator(scope, Rule::Test, here)? {
        None => maybe_null(scope, left, here),
        Some((operator, next)) => {
            let (right, behind) = read(scope, levels, Rule::Added, next)?;
            Ok((two(scope, operator, left, right)?, behind))
        }
    }
}

/// NOT or a sign and what stands behind it, from behind the first token on.
#[cycle(expr)]
#[tactic(auto, unfolding(crate::specs::Expressions::prefixed_in))]
fn prefixed<'a>(
    scope: Scope,
    levels: u32,
    rule: Rule,
    cursor: Cursor<'a>,
    rest: &'a [u8],
) -> Result<(Expr, Cursor<'a>), Stop>
    requires whole { length cursor.text.now ≤ scope.whole }
    requires behind { length rest.now ≤ length cursor.text.now }
    ensures exact { Gives (λ x. (x.0, point_of x.1)) result
        (prefixed_in scope.whole (inner_at scope.whole levels) rule (point_of cursor.entry) rest.now) }
    ensures within { IfOk result (λ x. length x.1.text.now ≤ length cursor.entry.text.now) }
    ensures fewer { IfOk result (λ x. x.1.operators ≤ cursor.entry.operators) }
{
    let at = place(scope.whole, cursor.text);
    let next = spend(cursor, rest)?;
    let (of, behind) = nested(scope, levels, rule, cursor.text, next)?;
    let node = prefix_node(scope, rule, of)?;
    Ok((Expr { at, node }, behind))
}

/// NOT and what it denies, or a test.
#[cycle(expr)]
#[tactic(auto, unfolding(crate::specs::Expressions::negation_in))]
fn negation<'a>(scope: Scope, levels: u32, cursor: Cursor<'a>) -> Result<(Expr, Cursor<'a>), Stop>
    requires { length cursor.text.now ≤ scope.whole }
    ensures exact { Gives (λ x. (x.0, point_of x.1)) result
        (rule_at scope.whole levels Rule.Not (point_of cursor.entry)) }
    ensures within { IfOk result (λ x. length x.1.text.now ≤ length cursor.entry.text.now) }
    ensures fewer { IfOk result (λ x. x.1.operators ≤ cursor.entry.operators) }
{
    match keyword_after(cursor.text, b"not") {
        None => read(scope, levels, Rule::Test, cursor),
        Some(rest) => prefixed(scope, levels, Rule::Not, cursor, rest),
    }
}

/// An expression in parentheses, from behind the first one on.
#[cycle(expr)]
#[tactic(auto, unfolding(crate::specs::Expressions::enclosed_in))]
fn enclosed<'a>(
    scope: Scope,
    levels: u32,
    cursor: Cursor<'a>,
    rest: &'a [u8],
) -> Result<(Expr, Cursor<'a>), Stop>
    requires whole { length cursor.text.now ≤ scope.whole }
    requires behind { length rest.now ≤ length cursor.text.now }
    ensures exact { Gives (λ x. (x.0, point_of x.1)) result
        (enclosed_in (inner_at scope.whole levels) (point_of cursor.entry) rest.now) }
    ensures within { IfOk result (λ x. length x.1.text.now ≤ length cursor.entry.text.now) }
    ensures fewer { IfOk result (λ x. x.1.operators ≤ cursor.entry.operators) }
{
    let inside = Cursor {
        text: rest,
        operators: cursor.operators,
    };
    let (expr, end) = nested(scope, levels, Rule::Or, cursor.text, inside)?;
    let text = mark(end.text, b')')?;
    Ok((
        expr,
        Cursor {
            text,
            operators: end.operators,
        },
    ))
}

/// A sign and its operand, a literal, a name, or an expression in parentheses.
#[cycle(expr)]
#[tactic(auto, unfolding(crate::specs::Expressions::unary_in))]
fn unary<'a>(scope: Scope, levels: u32, cursor: Cursor<'a>) -> Result<(Expr, Cursor<'a>), Stop>
    requires { length cursor.text.now ≤ scope.whole }
    ensures exact { Gives (λ x. (x.0, point_of x.1)) result
        (rule_at scope.whole levels Rule.Unary (point_of cursor.entry)) }
    ensures within { IfOk result (λ x. length x.1.text.now ≤ length cursor.entry.text.now) }
    ensures fewer { IfOk result (λ x. x.1.operators ≤ cursor.entry.operators) }
{
    match mark_after(cursor.text, b'-') {
        Some(rest) => if is_number_next(rest) {
            negative_number(scope, cursor, rest)
        } else {
            prefixed(scope, levels, Rule::Unary, cursor, rest)
        },
        None => match mark_after(cursor.text, b'(') {
            Some(rest) => enclosed(scope, levels, cursor, rest),
            None => leaf(scope, cursor),
        },
    }
}

/// An expression.
#[tactic(auto, unfolding(crate::specs::Expressions::expr_at))]
pub fn expr(scope: Scope, text: &[u8]) -> Result<(Expr, &[u8]), Stop>
    requires { length text.now ≤ scope.whole }
    ensures exact { Gives (λ x. (x.0, x.1.now)) result (expr_at scope.whole text.now) }
    ensures within { IfOk result (λ x. length x.1.now ≤ length text.now) }
{
    let cursor = Cursor {
        text,
        operators: MAX_OPERATORS,
    };
    let (expr, end) = read(scope, MAX_LEVELS, Rule::Or, cursor)?;
    Ok((expr, end.text))
}
