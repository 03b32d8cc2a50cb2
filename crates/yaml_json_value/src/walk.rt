//! The value of a text's tokens.
ghost use Rattle.std.specs.Prelude.{◌≡◌, ◌∷◌, [], IfErr, IfOk, OnOk, Some};
ghost use Rattle.json.specs.Reads.{token_of};
ghost use Rattle.json.specs.Token as spec;
ghost use Rattle.yaml_base.specs.values.TypedValues.{TypedValue};
ghost use Rattle.yaml_value.specs.OpenLevels.{seen_levels};
ghost use Rattle.yaml_value.specs.SeenValues.{seen_value};
ghost use Rattle.yaml_json_value.specs.Standing.{run, whole, within};
ghost use Rattle.yaml_json_value.specs.Typed.{AreIntegers};
ghost use Rattle.yaml_json_value.specs.Walked.{EndsAt, IsRoot, IsText, ReadsNoToken, StopsAtOther, Taken};

use crate::error::Stop;
use crate::levels::{enter, give_name, leave_list, leave_map, settle};
use crate::numbers::integer_in;
use json::Token;
use std::alloc::Allocator;
use yaml_json::Tokens;
use yaml_value::{Level, Value};

fn text_of<A: Allocator + Copy>(alloc: A, text: &str) -> Result<Value<A>, Stop>
    ensures { IsText text.now result }
{
    match String::from_str(alloc, text) {
        Ok(text) => Ok(Value::Text(text)),
        Err(_) => Err(Stop::Memory),
    }
}

fn take_text<A: Allocator + Copy>(
    alloc: A,
    levels: &mut Vec<Level<A>, A>,
    text: &str,
) -> Result<Option<Value<A>>, Stop>
    ensures { Taken (spec.string text.now) (seen_levels levels.old.items) levels.new.items result }
{
    match text_of(alloc, text) {
        Ok(value) => settle(levels, value),
        Err(stop) => Err(stop),
    }
}

fn take_name<A: Allocator + Copy>(
    alloc: A,
    levels: &mut Vec<Level<A>, A>,
    name: &str,
) -> Result<Option<Value<A>>, Stop>
    ensures { Taken (spec.key name.now) (seen_levels levels.old.items) levels.new.items result }
{
    match text_of(alloc, name) {
        Ok(name) => give_name(levels, name),
        Err(stop) => Err(stop),
    }
}

fn take_number<A: Allocator + Copy>(
    levels: &mut Vec<Level<A>, A>,
    digits: &str,
) -> Result<Option<Value<A>>, Stop>
    ensures { Taken (spec.number digits.now) (seen_levels levels.old.items) levels.new.items result }
{
    match integer_in(digits) {
        Ok(number) => settle(levels, Value::Int(number)),
        Err(stop) => Err(stop),
    }
}

/// Takes a token more. Returns the value if it is whole then.
fn take_token<'a, A: Allocator + Copy>(
    alloc: A,
    levels: &mut Vec<Level<A>, A>,
    token: Token<'a>,
) -> Result<Option<Value<A>>, Stop>
    ensures { Taken (token_of token.entry) (seen_levels levels.old.items) levels.new.items result }
{
    match token {
        Token::Null => settle(levels, Value::Null),
        Token::Bool(flag) => settle(levels, Value::Bool(flag)),
        Token::Number(digits) => take_number(levels, digits),
        Token::String(text) => take_text(alloc, levels, text),
        Token::Key(name) => take_name(alloc, levels, name),
        Token::BeginArray => enter(levels, Level::Items(Vec::new(alloc))),
        Token::EndArray => leave_list(levels),
        Token::BeginObject => enter(levels, Level::Pairs(Vec::new(alloc))),
        Token::EndObject => leave_map(levels),
        Token::Bad => Err(Stop::Misplaced),
    }
}

fn next_token<'a, A: Allocator + Copy>(reader: &mut Tokens<'a, A>) -> Result<Token<'a>, Stop>
    ensures first { IfOk result (λ token. reader.old.ahead ≡ token_of token ∷ reader.new.ahead) }
    ensures none { IfErr result (ReadsNoToken reader.old.ahead) }
    ensures before { reader.new.before ≡ reader.old.ahead }
    ensures text { reader.new.text ≡ reader.old.text }
{
    match reader.next() {
        Ok(Some(token)) => Ok(token),
        Ok(None) => Err(Stop::Misplaced),
        Err(_) => Err(Stop::Memory),
    }
}

/// Returns the value, if no token is left.
fn finish<'a, A: Allocator + Copy>(
    reader: &Tokens<'a, A>,
    value: Value<A>,
) -> Result<Value<A>, Stop>
    ensures { EndsAt reader.now.ahead (seen_value value) result }
{
    if reader.is_at_end() {
        Ok(value)
    } else {
        Err(Stop::Misplaced)
    }
}

/// Returns the value of all tokens.
pub(crate) fn read_value<'a, A: Allocator + Copy>(
    alloc: A,
    reader: &mut Tokens<'a, A>,
) -> Result<Value<A>, Stop>
    ensures read { (root : TypedValue) → run reader.old.ahead (within []) ≡ Some (whole root) → IsRoot root result }
    ensures integers { OnOk result (AreIntegers reader.old.ahead) }
    ensures other { StopsAtOther reader.old.ahead reader.new.before result }
    ensures text { reader.new.text ≡ reader.old.text }
{
    let mut levels = Vec::new(alloc);
    'each_token: loop {
        let token = match next_token(reader) {
            Ok(token) => token,
            Err(stop) => return Err(stop),
        };
        match take_token(alloc, &mut levels, token) {
            Ok(None) => {}
            Ok(Some(value)) => return finish(reader, value),
            Err(stop) => return Err(stop),
        }
    }
}
