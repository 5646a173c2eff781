//! What keeps a text from having nodes: foreign bytes, parentheses that do not fit, and lists too deep.

ghost use Rattle.std.specs.Prelude.{◌≡◌, ◌≤◌, ◌<◌, ◌+◌, ◌^◌, length};
ghost use Rattle.p3_base.specs.declared.refusal.Side.TheVariants.{Written};
ghost use Rattle.p3_task.specs.Refusals.Places.{refusal_at};
ghost use Rattle.p3_task.specs.Sides.{byte_limit};
ghost use Rattle.p3_lexer.specs.Lexing.{token_of};
ghost use Rattle.p3_outline.specs.Balances.{deep_at, closed_at, word_at, inside, with_token, depth, at_end, balance_refusal};

use p3_base::{Code, Pos, Refusal, Role};
use p3_lexer::{Lexer, Next, is_close, is_open};

/// How far a scan has come.
#[derive(Clone, Copy)]
enum Scan {
    /// So many lists are open; the first `(` above the limit.
    Inside(u32, Option<Refusal>),
    /// One expression is whole; the first `(` above the limit.
    Behind(Option<Refusal>),
    /// The first token that closes nothing or follows the whole expression.
    Unbalanced(Refusal),
}

fn refusal_at(code: Code, role: Role, offset: u32, len: u32) -> Refusal
    ensures { result ≡ refusal_at code role offset len }
{
    Refusal {
        code,
        pos: Pos { role, offset },
        len,
    }
}

fn deep_at(role: Role, limit: u32, lists: u32, deep: Option<Refusal>, at: u32) -> Option<Refusal>
    ensures { result ≡ deep_at role limit lists deep at }
{
    match deep {
        Some(found) => Some(found),
        None => {
            if lists < limit {
                None
            } else {
                Some(refusal_at(Code::TooDeep, role, at, 1))
            }
        }
    }
}

fn closed_at(role: Role, lists: u32, deep: Option<Refusal>, at: u32) -> Scan
    ensures { result ≡ closed_at role lists deep at }
{
    if lists == 0 {
        Scan::Unbalanced(refusal_at(Code::Unbalanced, role, at, 1))
    } else if lists == 1 {
        Scan::Behind(deep)
    } else {
        Scan::Inside(lists - 1, deep)
    }
}

fn word_at(lists: u32, deep: Option<Refusal>) -> Scan
    ensures { result ≡ word_at lists deep }
{
    if lists == 0 {
        Scan::Behind(deep)
    } else {
        Scan::Inside(lists, deep)
    }
}

fn inside(
    role: Role,
    limit: u32,
    lists: u32,
    deep: Option<Refusal>,
    offset: u32,
    text: &[u8],
) -> Scan
    requires few { lists + 1 < 2 ^ 32 }
    ensures { result ≡ inside role limit lists deep (token_of offset text.now) }
{
    if is_open(text) {
        Scan::Inside(lists + 1, deep_at(role, limit, lists, deep, offset))
    } else if is_close(text) {
        closed_at(role, lists, deep, offset)
    } else {
        word_at(lists, deep)
    }
}

/// One token more.
#[tactic(auto, using(p3_lexer::proofs::MarkLemmas::refusal_of_token))]
fn with_token(role: Role, limit: u32, scan: Scan, offset: u32, text: &[u8]) -> Scan
    requires few { depth scan + 1 < 2 ^ 32 }
    requires short { length text.now ≤ byte_limit Written }
    ensures { result ≡ with_token role limit scan (token_of offset text.now) }
{
    match scan {
        Scan::Inside(lists, deep) => inside(role, limit, lists, deep, offset, text),
        Scan::Behind(_) => Scan::Unbalanced(refusal_at(
            Code::Unbalanced,
            role,
            offset,
            text.len() as u32,
        )),
        Scan::Unbalanced(found) => Scan::Unbalanced(found),
    }
}

fn at_end(role: Role, scan: Scan, size: u32) -> Option<Refusal>
    ensures { result ≡ at_end role size scan }
{
    match scan {
        Scan::Inside(_, _) => Some(refusal_at(Code::Unbalanced, role, size, 0)),
        Scan::Behind(deep) => deep,
        Scan::Unbalanced(found) => Some(found),
    }
}

/// The first refusal of a text's bytes and parentheses.
pub(crate) fn first_refusal(role: Role, limit: u32, text: &[u8]) -> Option<Refusal>
    requires { length text.now ≤ byte_limit Written }
    ensures { result ≡ balance_refusal role limit text.now }
{
    let mut scan = Scan::Inside(0, None);
    let mut lexer = Lexer::new(text);
    loop {
        match lexer.next() {
            Next::Token { text: word, offset } => {
                scan = with_token(role, limit, scan, offset, word);
            }
            Next::End => return at_end(role, scan, text.len() as u32),
            Next::Bad(at) => return Some(refusal_at(Code::BadByte, role, at, 1)),
        }
    }
}
