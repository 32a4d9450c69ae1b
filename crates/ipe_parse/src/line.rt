ghost use Rattle.std.specs.Prelude.{◌≡◌, ◌-◌, ◌≤◌, codes, IfOk, length, take, vec_len};
ghost use Rattle.line_words.specs.Words.{is_text};
ghost use Rattle.ipe_parse.specs.Tokens.{default_of, last_action, lone_action, properties_of, rule_of_line, statement_of};
ghost use Rattle.ipe_parse.specs.Lines.{LineGives, words};

use crate::BadKind;
use crate::line_error::LineError;
use crate::token::{action_named, behind, op_named, op_of, property_of};
use ipe_policy::{Action, Properties, Property, Statement};
use std::alloc::Global;

fn last_action(tokens: &[&[u8]]) -> Option<Action>
    ensures { result ≡ last_action (words tokens.now) }
{
    action_named(tokens.last()?)
}

// The action of a default, which stands alone after the words before it.
fn lone_action(tokens: &[&[u8]]) -> Result<Action, BadKind>
    ensures { result ≡ lone_action (words tokens.now) }
{
    let action = last_action(tokens).ok_or(BadKind::BadAction)?;
    if tokens.len() > 1 {
        return Err(BadKind::PropertyInDefault);
    }
    Ok(action)
}

// The default that stands after the word DEFAULT.
fn default_of(tokens: &[&[u8]]) -> Result<Statement, BadKind>
    ensures { result ≡ default_of (words tokens.now) }
{
    let [second, others @ ..] = tokens else {
        return Err(BadKind::BadAction);
    };
    match behind(b"op=", second) {
        Some(word) => {
            let op = op_named(word).ok_or(BadKind::BadOp)?;
            let action = lone_action(others)?;
            Ok(Statement::OpDefault { op, action })
        }
        None => {
            let action = lone_action(tokens)?;
            Ok(Statement::GlobalDefault { action })
        }
    }
}

fn properties_of(alloc: Global, tokens: &[&[u8]]) -> Result<Vec<Property>, LineError>
    ensures read { LineGives (λ properties. properties.items) result (properties_of (words tokens.now)) }
    ensures each { IfOk result (λ properties. vec_len properties ≡ length tokens.now) }
{
    let mut properties = Vec::new(alloc);
    for token in tokens {
        properties.push(property_of(token)?)?;
    }
    Ok(properties)
}

// All tokens but the last.
fn without_last<'a, 'b>(tokens: &'b [&'a [u8]]) -> &'b [&'a [u8]]
    ensures same { words result.now ≡ take (length (words tokens.now) - 1) (words tokens.now) }
    ensures fewer { length result.now ≡ length tokens.now - 1 }
{
    let (middle, _) = tokens.split_at(tokens.len().saturating_sub(1));
    middle
}

// The properties of a rule, between its operation and its action.
fn rule_properties(alloc: Global, others: &[&[u8]]) -> Result<Properties, LineError>
    requires { length others.now ≤ 17 }
    ensures { LineGives (λ properties. properties) result
        (properties_of (take (length (words others.now) - 1) (words others.now))) }
{
    let properties = properties_of(alloc, without_last(others))?;
    Ok(Properties::from_vec(properties))
}

fn rule_of_line(alloc: Global, first: &[u8], others: &[&[u8]]) -> Result<Statement, LineError>
    ensures { LineGives (λ statement. statement) result (rule_of_line first.now (words others.now)) }
{
    let op = op_of(first).ok_or(BadKind::BadOp)?;
    let action = last_action(others).ok_or(BadKind::BadAction)?;
    if others.len() > Properties::MOST + 1 {
        return Err(LineError::Bad(BadKind::TooManyProperties));
    }
    let props = rule_properties(alloc, others)?;
    Ok(Statement::Rule { op, props, action })
}

fn is_default(word: &[u8]) -> bool
    ensures { result ≡ is_text (codes "DEFAULT") word.now }
{
    word == b"DEFAULT".as_slice()
}

/// The statement of a line, but for what the lines before it say.
pub(crate) fn statement_of(alloc: Global, tokens: &[&[u8]]) -> Result<Statement, LineError>
    ensures { LineGives (λ statement. statement) result (statement_of (words tokens.now)) }
{
    let [first, others @ ..] = tokens else {
        return Err(LineError::Bad(BadKind::BadOp));
    };
    if is_default(first) {
        Ok(default_of(others)?)
    } else {
        rule_of_line(alloc, first, others)
    }
}
