// Which statement, and which part of an expression, stands at which token.

ghost use Rattle.std.specs.Prelude.{◌≡◌, ◌<◌, ◌+◌, ◌^◌, ◌++◌, ◌∷◌, [], IfOk, OnOk, if◌then◌else◌, length, map, true};
ghost use Rattle.std.specs.List.{flat_map, zip};
ghost use Rattle.lrc_lang.specs.Parser.View.{token_of};
ghost use Rattle.lrc_program.specs.Statements.{block_of, expression_of, statement_of};
ghost use Rattle.lrc_lint_warned.specs.Found.{node_seen, statement_seen};
ghost use Rattle.lrc_lint_warned.specs.Inside.{nodes_of};
ghost use Rattle.lrc_lint_warned.specs.Places.{begins_statement, is_node, is_seam, is_wanted, joins, node_at, nodes_at, places_from, places_in};
ghost use Rattle.lrc_lint_warned.specs.Places.{statement_at, statements_at};

use crate::found::{NodeAt, StatementAt};
use crate::inside::{put_nodes_of, statements_in};
use lrc_lang::token::{Keyword, Sign, Token};
use lrc_program::{Expression, Statement};
use std::alloc::{AllocError, Global};

/// The number of tokens before a program's statements: `words N; locks N;`.
const HEADER: usize = 6;

/// What a scan looks for among the tokens.
#[derive(Clone, Copy)]
pub enum Scan {
    /// The tokens that begin statements.
    Statements,
    /// The operands, and the signs between them.
    Nodes,
}

/// Returns the statements of a program with the places of their first tokens, in the order of the text. It fails if
/// memory runs out.
pub fn statements_at<'p>(
    alloc: Global,
    block: &'p [Statement],
    tokens: &[Token<'_>],
) -> Result<Vec<StatementAt<'p>>, AllocError>
    requires { length tokens.now < 2 ^ 31 }
    ensures { IfOk result (λ all. map statement_seen all.items
        ≡ statements_at (map token_of tokens.now) (block_of block.entry.now)) }
{
    let all = statements_in(alloc, block)?;
    let places = places_in(alloc, tokens, Scan::Statements)?;
    zip_statements(alloc, &places, &all)
}

fn zip_statements<'p>(
    alloc: Global,
    places: &[u32],
    all: &[&'p Statement],
) -> Result<Vec<StatementAt<'p>>, AllocError>
    ensures { IfOk result (λ found. map statement_seen found.items
        ≡ map statement_at (zip places.now (map (λ s. statement_of s.now) all.now))) }
{
    let mut found = Vec::new(alloc);
    for i in 0..places.len().min(all.len()) {
        found.push(StatementAt {
            at: places[i],
            statement: all[i],
        })?;
    }
    Ok(found)
}

/// Returns the parts of the expressions of a program with the places of their tokens, in the order of the text. It
/// fails if memory runs out.
pub fn nodes_at<'p>(
    alloc: Global,
    block: &'p [Statement],
    tokens: &[Token<'_>],
) -> Result<Vec<NodeAt<'p>>, AllocError>
    requires { length tokens.now < 2 ^ 31 }
    ensures { IfOk result (λ all. map node_seen all.items
        ≡ nodes_at (map token_of tokens.now) (block_of block.entry.now)) }
{
    let statements = statements_in(alloc, block)?;
    let nodes = nodes_of_all(alloc, &statements)?;
    let places = places_in(alloc, tokens, Scan::Nodes)?;
    zip_nodes(alloc, &places, &nodes)
}

fn zip_nodes<'p>(
    alloc: Global,
    places: &[u32],
    all: &[&'p Expression],
) -> Result<Vec<NodeAt<'p>>, AllocError>
    ensures { IfOk result (λ found. map node_seen found.items
        ≡ map node_at (zip places.now (map (λ n. expression_of n.now) all.now))) }
{
    let mut found = Vec::new(alloc);
    for i in 0..places.len().min(all.len()) {
        found.push(NodeAt {
            at: places[i],
            node: all[i],
        })?;
    }
    Ok(found)
}

fn nodes_of_all<'p>(
    alloc: Global,
    statements: &[&'p Statement],
) -> Result<Vec<&'p Expression>, AllocError>
    ensures { IfOk result (λ nodes. map (λ n. expression_of n.now) nodes.items
        ≡ flat_map nodes_of (map (λ s. statement_of s.now) statements.now)) }
{
    let mut nodes = Vec::new(alloc);
    for s in statements {
        put_nodes_of(&mut nodes, s)?;
    }
    Ok(nodes)
}

// The places of what is looked for, behind the header.
fn places_in(alloc: Global, tokens: &[Token<'_>], scan: Scan) -> Result<Vec<u32>, AllocError>
    requires { length tokens.now < 2 ^ 31 }
    ensures { IfOk result (λ places. places.items ≡ places_in scan (map token_of tokens.now)) }
{
    if tokens.len() < HEADER {
        return Ok(Vec::new(alloc));
    }
    places_from(alloc, &tokens[HEADER..], scan)
}

fn places_from(alloc: Global, tokens: &[Token<'_>], scan: Scan) -> Result<Vec<u32>, AllocError>
    requires { length tokens.now < 2 ^ 31 }
    ensures { IfOk result (λ places. places.items
        ≡ places_from scan 6 true (map token_of tokens.now)) }
{
    let mut places = Vec::new(alloc);
    let mut behind_seam = true;
    for (i, token) in tokens.iter().enumerate() {
        put_place(
            &mut places,
            i as u32 + 6,
            is_wanted(scan, behind_seam, *token),
        )?;
        behind_seam = is_seam(*token);
    }
    Ok(places)
}

fn put_place(places: &mut Vec<u32>, at: u32, wanted: bool) -> Result<(), AllocError>
    ensures { OnOk result (places.new.items
        ≡ places.old.items ++ (if wanted then at ∷ [] else [])) }
{
    if wanted {
        places.push(at)?;
    }
    Ok(())
}

fn is_wanted(scan: Scan, behind_seam: bool, token: Token<'_>) -> bool
    ensures { result ≡ is_wanted scan behind_seam (token_of token.entry) }
{
    match scan {
        Scan::Statements => begins_statement(behind_seam, token),
        Scan::Nodes => is_node(behind_seam, token),
    }
}

// Whether a token begins a statement.
fn begins_statement(behind_seam: bool, token: Token<'_>) -> bool
    ensures { result ≡ begins_statement behind_seam (token_of token.entry) }
{
    match token {
        Token::End | Token::Keyword(Keyword::Else) | Token::Sign(Sign::CloseBrace) => false,
        _ => behind_seam,
    }
}

// Whether a token is an operand or a sign between two: a name that does not begin a statement is an operand.
fn is_node(behind_seam: bool, token: Token<'_>) -> bool
    ensures { result ≡ is_node behind_seam (token_of token.entry) }
{
    match token {
        Token::Number(_) | Token::Keyword(Keyword::Me | Keyword::Nodes) => true,
        Token::Name(_) => !behind_seam,
        Token::Sign(sign) => joins(sign),
        _ => false,
    }
}

fn joins(sign: Sign) -> bool
    ensures { result ≡ joins sign }
{
    match sign {
        Sign::Semicolon
        | Sign::Assign
        | Sign::OpenBracket
        | Sign::CloseBracket
        | Sign::OpenBrace
        | Sign::CloseBrace
        | Sign::OpenParenthesis
        | Sign::CloseParenthesis => false,
        _ => true,
    }
}

// Whether a statement may begin behind a token.
fn is_seam(token: Token<'_>) -> bool
    ensures { result ≡ is_seam (token_of token.entry) }
{
    matches!(
        token,
        Token::Sign(Sign::Semicolon | Sign::OpenBrace | Sign::CloseBrace)
    )
}
