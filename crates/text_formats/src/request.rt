//! Requests of a script's events.
ghost use Rattle.std.specs.Prelude.{◌≡◌, ◌<◌, ℕ, IfSome, Some, map, codes, ◌∷◌, []};
ghost use Rattle.std.specs.Fmt.{decimal};
ghost use Rattle.seq_model.specs.declared.call.Op.{Op};
ghost use Rattle.seq_model.specs.declared.event.Request.{Request};
ghost use Rattle.seq_model.specs.declared.event.Request.TheVariants as request;
ghost use Rattle.text_formats.specs.ScriptTokens.{narrowed};
ghost use Rattle.text_formats.specs.Tokens.{IsNumber};
ghost use Rattle.text_formats.specs.Requests.{Fits, IsRequest, call_tokens};

use crate::decimal::number;
use crate::pairs::clamped;
use seq_model::{Call, Op, Request};

/// The request that these tokens spell.
pub fn read_request(tokens: &[&str]) -> Option<Request<u64>>
    ensures found { IfSome result (IsRequest (map (λ token. token.now) tokens.now)) }
    ensures only { (r : Request ℕ) → IsRequest (map (λ token. token.now) tokens.now) r → result ≡ Some r }
{
    match tokens {
        [word] => bare_request(word),
        [word, target, what @ ..] => call(target, asked(word, what)?),
        [] => None,
    }
}

fn bare_request(word: &str) -> Option<Request<u64>>
    ensures found { IfSome result (IsRequest (word.now ∷ [])) }
    ensures only { (r : Request ℕ) → IsRequest (word.now ∷ []) r → result ≡ Some r }
{
    match word {
        "begin" => Some(Request::Begin),
        "begin_read" => Some(Request::BeginRead),
        "commit" => Some(Request::Commit),
        "abort" => Some(Request::Abort),
        _ => None,
    }
}

// A target above every target there may be is good text.
fn call(target: &str, op: Op<u64>) -> Option<Request<u64>>
    ensures found { IfSome result (λ r. (n : ℕ) × (IsNumber target.now n × (r ≡ request.Call (record { target = narrowed n; op = op })))) }
    ensures only { (n : ℕ) → IsNumber target.now n → result ≡ Some (request.Call (record { target = narrowed n; op = op })) }
{
    let target = clamped(number(target)?);
    Some(Request::Call(Call { target, op }))
}

fn asked(word: &str, what: &[&str]) -> Option<Op<u64>>
    ensures found { IfSome result (λ op. (n : ℕ) → call_tokens n op ≡ word.now ∷ decimal n ∷ map (λ token. token.now) what.now) }
    ensures only { (n : ℕ) (op : Op ℕ) → Fits op → call_tokens n op ≡ word.now ∷ decimal n ∷ map (λ token. token.now) what.now →
        result ≡ Some op }
{
    match (word, what) {
        ("read", []) => Some(Op::Read),
        ("write", [value]) => Some(Op::Write(number(value)?)),
        ("call", op) => read_op(op),
        _ => None,
    }
}

// One match of all these words takes the prover a minute.
fn read_op(tokens: &[&str]) -> Option<Op<u64>>
    ensures found { IfSome result (λ op. (n : ℕ) → call_tokens n op ≡ codes "call" ∷ decimal n ∷ map (λ token. token.now) tokens.now) }
    ensures only { (n : ℕ) (op : Op ℕ) → Fits op → call_tokens n op ≡ codes "call" ∷ decimal n ∷ map (λ token. token.now) tokens.now →
        result ≡ Some op }
{
    match tokens {
        [word] => bare_op(word),
        [word, operand] => op_of(word, operand),
        ["put", key, value] => put(key, value),
        _ => None,
    }
}

fn bare_op(word: &str) -> Option<Op<u64>>
    ensures found { IfSome result (λ op. (n : ℕ) → call_tokens n op ≡ codes "call" ∷ decimal n ∷ word.now ∷ []) }
    ensures only { (n : ℕ) (op : Op ℕ) → call_tokens n op ≡ codes "call" ∷ decimal n ∷ word.now ∷ [] → result ≡ Some op }
{
    match word {
        "len" => Some(Op::Len),
        "least" => Some(Op::Least),
        "take_least" => Some(Op::TakeLeast),
        "dequeue" => Some(Op::Dequeue),
        "peek" => Some(Op::Peek),
        _ => None,
    }
}

fn op_of(word: &str, operand: &str) -> Option<Op<u64>>
    ensures found { IfSome result (λ op. (n : ℕ) → call_tokens n op ≡ codes "call" ∷ decimal n ∷ word.now ∷ operand.now ∷ []) }
    ensures only { (n : ℕ) (op : Op ℕ) → Fits op → call_tokens n op ≡ codes "call" ∷ decimal n ∷ word.now ∷ operand.now ∷ [] →
        result ≡ Some op }
{
    let operand = number(operand)?;
    match word {
        "get" => Some(Op::Get(operand)),
        "remove" => Some(Op::Remove(operand)),
        "count" => Some(Op::Count(operand)),
        "add" => Some(Op::Add(operand)),
        "take" => Some(Op::Take(operand)),
        "insert" => Some(Op::Insert(operand)),
        "enqueue" => Some(Op::Enqueue(operand)),
        _ => None,
    }
}

fn put(key: &str, value: &str) -> Option<Op<u64>>
    ensures found { IfSome result (λ op. (n : ℕ) → call_tokens n op ≡ codes "call" ∷ decimal n ∷ codes "put" ∷ key.now ∷ value.now ∷ []) }
    ensures only { (n : ℕ) (op : Op ℕ) → Fits op →
        call_tokens n op ≡ codes "call" ∷ decimal n ∷ codes "put" ∷ key.now ∷ value.now ∷ [] → result ≡ Some op }
{
    Some(Op::Put(number(key)?, number(value)?))
}
