ghost use Rattle.std.specs.Prelude.{◌≡◌, ◌<◌, ◌≤◌, ◌+◌, ℕ, suc, List, [], ◌∷◌, ◌++◌, length, drop, MatchOption};
ghost use Rattle.jd_bracketed.specs.Bytes as bytes;
ghost use Rattle.jd_bracketed.specs.Tokens as plain;
ghost use Rattle.jd_bracketed.specs.Tokens.{Placed, tokens_from, tokens_of, word_more};
ghost use Rattle.jd_bracketed.specs.TokenViews.{token_view, kind_view, found_view};

use crate::class::{Class, class_in};
use crate::token::{Kind, Token};
use std::marker::Model;

/// What stands at the head of a text: a token, or a byte between tokens.
#[derive(Clone, Copy)]
struct Piece<'a> {
    kind: Option<Kind<'a>>,
    len: usize,
    /// Whether a comment is open behind it.
    in_comment: bool,
}

/// A token with what is left of the text behind it.
#[derive(Clone, Copy)]
struct Found<'a> {
    token: Token<'a>,
    rest: &'a [u8],
    at: u32,
    in_comment: bool,
}

// Which token the byte is by itself.
fn kind_alone<'a>(byte: u8) -> Kind<'a>
    ensures { kind_view result ≡ plain.kind_alone byte }
{
    match byte {
        b'(' => Kind::Open,
        b')' => Kind::Close,
        b'[' => Kind::OpenSquare,
        b']' => Kind::CloseSquare,
        _ => Kind::Bad,
    }
}

// Whether words are made of the byte.
fn is_word_byte(byte: u8) -> bool
    ensures { result ≡ bytes.is_word_byte byte }
{
    matches!(class_in(false, byte), Class::Part)
}

// How many bytes of words stand at the head.
fn run_len(bytes: &[u8]) -> usize
    ensures run { result ≡ plain.run_length bytes.now }
    ensures within { result ≤ length bytes.now }
{
    for (n, byte) in bytes.iter().enumerate() {
        if !is_word_byte(*byte) {
            return n;
        }
    }
    bytes.len()
}

// How many bytes the word at the head has.
fn word_len(bytes: &[u8]) -> usize
    requires { 0 < length bytes.now }
    ensures word { result ≡ suc (word_more bytes.now) }
    ensures within { result ≤ length bytes.now }
{
    if bytes.starts_with(b"int[]") {
        5
    } else {
        1 + run_len(&bytes[1..])
    }
}

// What stands at the head.
fn first_piece<'a>(bytes: &'a [u8], in_comment: bool) -> Piece<'a>
    requires { 0 < length bytes.now }
    ensures some { 0 < result.len }
    ensures within { result.len ≤ length bytes.now }
    ensures tokens { (at : ℕ) → tokens_from in_comment at bytes.now
        ≡ found_view at result.kind ++ tokens_from result.in_comment (at + result.len) (drop result.len bytes.now) }
{
    let first = bytes[0];
    match class_in(in_comment, first) {
        Class::Blank => Piece {
            kind: None,
            len: 1,
            in_comment: false,
        },
        Class::InComment => Piece {
            kind: None,
            len: 1,
            in_comment: true,
        },
        Class::Alone => Piece {
            kind: Some(kind_alone(first)),
            len: 1,
            in_comment,
        },
        Class::Part => {
            let len = word_len(bytes);
            let (word, _behind) = bytes.split_at(len);
            Piece {
                kind: Some(Kind::Word(word)),
                len,
                in_comment,
            }
        }
    }
}

// The first token of what is left of a text.
fn first_token<'a>(mut rest: &'a [u8], mut at: u32, mut in_comment: bool) -> Option<Found<'a>>
    requires { at + length rest.now ≤ 4294967295 }
    ensures { MatchOption result
        (tokens_from in_comment at rest.entry.now ≡ [])
        (λ found. (tokens_from in_comment at rest.entry.now
        ≡ token_view found.token ∷ tokens_from found.in_comment found.at found.rest.now)
        × (found.at + length found.rest.now ≤ 4294967295)) }
{
    while !rest.is_empty() {
        let piece = first_piece(rest, in_comment);
        let (_text, behind) = rest.split_at(piece.len);
        let begin = at;
        rest = behind;
        at += piece.len as u32;
        in_comment = piece.in_comment;
        if let Some(kind) = piece.kind {
            let token = Token { kind, at: begin };
            return Some(Found {
                token,
                rest,
                at,
                in_comment,
            });
        }
    }
    None
}

/// The tokens of a text, read one after the other. Contracts see the list of those that are still to come.
#[derive(Drop)]
pub struct Tokens<'a> {
    rest: &'a [u8],
    at: u32,
    in_comment: bool,
}

impl<'a> Model for Tokens<'a> {
    ghost use Rattle.std.specs.Prelude.{◌≤◌, ◌+◌, List, length};
    ghost use Rattle.jd_bracketed.specs.Tokens.{Placed, tokens_from};

    ghost Value = { List Placed };

    ghost view = { λ t. tokens_from t.in_comment t.at t.rest.now };

    ghost invariant = { λ t. t.at + length t.rest.now ≤ 4294967295 };
}

impl<'a> Tokens<'a> {
    /// All tokens of the text.
    pub fn new(bytes: &'a [u8]) -> Tokens<'a>
        requires { length bytes.now ≤ 4294967295 }
        ensures { result ≡ tokens_of bytes.now }
    {
        Tokens {
            rest: bytes,
            at: 0,
            in_comment: false,
        }
    }

    /// The next token, if there is one.
    pub fn next(&mut self) -> Option<Token<'a>>
        ensures { MatchOption result
            ((self.old ≡ []) × (self.new ≡ []))
            (λ token. self.old ≡ token_view token ∷ self.new) }
    {
        let found = first_token(self.rest, self.at, self.in_comment)?;
        self.rest = found.rest;
        self.at = found.at;
        self.in_comment = found.in_comment;
        Some(found.token)
    }
}
