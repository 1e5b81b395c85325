//! Expressions and conditions at the front of tokens.

use ac_lex::{Token, lex};
use ac_parse_grammar::conditions::condition;
use ac_parse_grammar::cursor::{Cursor, Stop};
use ac_parse_grammar::expressions::expression;
use ac_parse_grammar::tree::{Expr, Operator, Part, Relation};
use std::alloc::Global;

/// Whether the parts are a comparison by `<` and one by `==`.
fn are_less_and_equal(parts: &[Part]) -> bool {
    match parts {
        [first, second] => {
            first.relation == Relation::Less && second.relation == Relation::Equal
        }
        _ => false,
    }
}

/// Whether the tokens begin with two such comparisons, and one token is left behind them.
fn begin_with_a_condition(alloc: Global, tokens: &[Token<'_>]) -> bool {
    let mut left = Cursor::new(tokens);
    match condition(alloc, &mut left, 8) {
        Ok(parts) => are_less_and_equal(parts.as_slice()) && left.count() == 1,
        Err(_) => false,
    }
}

/// Whether the tokens begin with no condition.
fn begin_with_no_condition(alloc: Global, tokens: &[Token<'_>]) -> bool {
    let mut left = Cursor::new(tokens);
    matches!(condition(alloc, &mut left, 8), Err(Stop::Syntax))
}

/// Whether the expression is a chain of three operands, a subtraction and then an addition.
fn is_chain_of_three(sum: &Expr) -> bool {
    match sum {
        Expr::Chain {
            operands,
            operators,
        } => {
            operands.len() == 3
                && operators.as_slice() == [Operator::Subtract, Operator::Add].as_slice()
        }
        _ => false,
    }
}

/// Whether the tokens begin with such a chain.
fn begin_with_a_chain(alloc: Global, tokens: &[Token<'_>]) -> bool {
    let mut left = Cursor::new(tokens);
    match expression(alloc, &mut left, 8) {
        Ok(sum) => is_chain_of_three(&sum),
        Err(_) => false,
    }
}

#[test]
fn a_condition_ends_where_no_comparison_goes_on(rt: HostRuntime) {
    // The parenthesis is left.
    match lex(rt.alloc(), b"i + 1 < 2*N && j == 0)") {
        Ok(tokens) => assert!(rt; begin_with_a_condition(rt.alloc(), tokens.as_slice())),
        Err(_) => panic!(rt; "no tokens"),
    }
}

#[test]
fn a_sum_is_no_condition(rt: HostRuntime) {
    match lex(rt.alloc(), b"i + 1") {
        Ok(tokens) => assert!(rt; begin_with_no_condition(rt.alloc(), tokens.as_slice())),
        Err(_) => panic!(rt; "no tokens"),
    }
}

#[test]
fn a_sum_is_one_chain(rt: HostRuntime) {
    match lex(rt.alloc(), b"a - b + c") {
        Ok(tokens) => assert!(rt; begin_with_a_chain(rt.alloc(), tokens.as_slice())),
        Err(_) => panic!(rt; "no tokens"),
    }
}
