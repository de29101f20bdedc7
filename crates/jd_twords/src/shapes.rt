//! The shapes of words.

ghost use Rattle.std.specs.Prelude.{◌≡◌, ◌<◌, ◌≤◌, ◌+◌, ◌^◌, true, pos, option_map, MatchOption};
ghost use Rattle.std.specs.List.{list_all};
ghost use Rattle.std.specs.Option.{is_some};
ghost use Rattle.std.specs.Str.{bytes_eq};
ghost use Rattle.std.specs.Str.Parse.{digits_value};
ghost use Rattle.jd_tforms.specs.HasForm as plain_forms;
ghost use Rattle.jd_tforms.specs.Naming as plain_names;
ghost use Rattle.jd_tforms.specs.Shapes as plain;
ghost use Rattle.jd_twords.specs.Numbers.{natural_below, negative_below};
ghost use Rattle.jd_twords.specs.Places.{place_view};

use crate::places::Place;
use jd_base::Sort;

// What may follow the sort's letter of a special name.
fn is_special_byte(byte: u8) -> bool
    ensures { result ≡ plain.is_special_byte byte }
{
    byte.is_ascii_lowercase()
        || byte.is_ascii_uppercase()
        || byte.is_ascii_digit()
        || byte == b'_'
        || byte == b'$'
        || byte == b'~'
}

fn are_special_bytes(bytes: &[u8]) -> bool
    ensures { result ≡ list_all plain.is_special_byte bytes.now }
{
    bytes.iter().all(|byte| is_special_byte(*byte))
}

fn is_name_byte(byte: u8) -> bool
    ensures { result ≡ plain.is_name_byte byte }
{
    is_special_byte(byte) || byte == b'\'' || byte == b'.' || byte == b'@' || byte == b'#'
}

fn are_name_bytes(bytes: &[u8]) -> bool
    ensures { result ≡ list_all plain.is_name_byte bytes.now }
{
    bytes.iter().all(|byte| is_name_byte(*byte))
}

/// A name: letters, digits and `_ $ ~ ' . @ #`, of which a digit is not the first.
pub fn is_name(word: &[u8]) -> bool
    ensures { result ≡ plain.is_name word.now }
{
    match word {
        [] => false,
        [first, ..] => !first.is_ascii_digit() && are_name_bytes(word),
    }
}

fn are_digits(bytes: &[u8]) -> bool
    ensures { result ≡ list_all plain.is_digit bytes.now }
{
    bytes.iter().all(|byte| byte.is_ascii_digit())
}

// Digits, of which a zero does not begin others.
fn is_natural(word: &[u8]) -> bool
    ensures { result ≡ plain.is_natural word.now }
{
    match word {
        [] => false,
        [first, more @ ..] => {
            first.is_ascii_digit() && are_digits(more) && (*first != b'0' || more.is_empty())
        }
    }
}

// The number that the digits write; none where it is above the greatest.
fn value_of(digits: &[u8], greatest: u128) -> Option<u128>
    requires digits { list_all plain.is_digit digits.now ≡ true }
    requires small { greatest ≤ 2 ^ 127 }
    ensures { MatchOption result (greatest < digits_value 10 digits.now)
        (λ value. (value ≡ digits_value 10 digits.now) × (value ≤ greatest)) }
{
    let mut value = 0;
    for byte in digits.iter() {
        if value > greatest / 10 {
            return None;
        }
        value = value * 10 + u128::from(*byte - b'0');
        if value > greatest {
            return None;
        }
    }
    Some(value)
}

/// The number that the word writes without leading zeros, where it is less than the limit.
pub fn number_below(word: &[u8], limit: u128) -> Option<u128>
    requires some { 0 < limit }
    requires small { limit ≤ 2 ^ 127 + 1 }
    ensures { result ≡ natural_below limit word.now }
{
    if !is_natural(word) {
        return None;
    }
    value_of(word, limit - 1)
}

/// The number of a loop or of a binder, of at most nine digits.
pub fn loop_of(word: &[u8]) -> Option<u32>
    ensures { result ≡ plain.loop_of word.now }
{
    match number_below(word, 1_000_000_000) {
        Some(n) => Some(n as u32),
        None => None,
    }
}

/// `l` and a number from 1 of at most nine digits.
pub fn label_of(word: &[u8]) -> Option<u32>
    ensures { result ≡ plain.label_of word.now }
{
    match word {
        [b'l', more @ ..] => match loop_of(more) {
            Some(0) | None => None,
            Some(n) => Some(n),
        },
        _ => None,
    }
}

/// `%` and the number of a binder.
pub fn bound_number(word: &[u8]) -> Option<u32>
    ensures { result ≡ plain.bound_number word.now }
{
    match word {
        [b'%', more @ ..] => loop_of(more),
        _ => None,
    }
}

// The negative integer, but for 0.
fn negated(n: u128) -> Option<i128>
    requires { n ≤ 2 ^ 127 }
    ensures { result ≡ plain.minus n }
{
    if n == 0 {
        None
    } else {
        Some(-1 - ((n - 1) as i128))
    }
}

// The integer from the least on that is written with a minus.
fn negative_of(word: &[u8], limit: u128) -> Option<i128>
    requires { limit ≤ 2 ^ 127 }
    ensures { result ≡ negative_below limit word.now }
{
    match number_below(word, limit + 1) {
        None => None,
        Some(n) => negated(n),
    }
}

// The integer from 0 on.
fn positive_of(word: &[u8], limit: u128) -> Option<i128>
    requires some { 0 < limit }
    requires small { limit ≤ 2 ^ 127 }
    ensures { result ≡ option_map pos (natural_below limit word.now) }
{
    match number_below(word, limit) {
        Some(n) => Some(n as i128),
        None => None,
    }
}

/// The integer that is written so, if it is one from the least on up to below the limit.
#[tactic(auto, using(crate::proofs::Numbers::integer_negative, crate::proofs::Numbers::integer_positive))]
pub fn integer_of(word: &[u8], limit: u128) -> Option<i128>
    requires some { 0 < limit }
    requires small { limit ≤ 2 ^ 127 }
    ensures { result ≡ plain.integer_of limit word.now }
{
    match word {
        [] => None,
        [first, more @ ..] => {
            if *first == b'-' {
                negative_of(more, limit)
            } else {
                positive_of(word, limit)
            }
        }
    }
}

/// The greatest number that a literal does not reach.
pub const WIDE: u128 = 170_141_183_460_469_231_731_687_303_715_884_105_728;

// The same in code.
const NARROW: u128 = 2_147_483_648;

/// Whether it is this word.
pub fn is_word(text: &[u8], word: &[u8]) -> bool
    ensures { result ≡ bytes_eq text.now word.now }
{
    text == word
}

/// The sort of a quantified variable: each but that of heaps.
pub fn sort_of_word(word: &[u8]) -> Option<Sort>
    ensures { result ≡ plain_names.sort_of_word word.now }
{
    if is_word(b"Int", word) {
        Some(Sort::Int)
    } else if is_word(b"Bool", word) {
        Some(Sort::Bool)
    } else if is_word(b"Ref", word) {
        Some(Sort::Ref)
    } else if is_word(b"Field", word) {
        Some(Sort::Field)
    } else {
        None
    }
}

/// The literal of 32 bits that is written so.
pub fn literal_of(word: &[u8]) -> Option<i32>
    ensures { result ≡ plain.integer_of plain.narrow word.now }
{
    match integer_of(word, NARROW) {
        Some(n) => Some(n as i32),
        None => None,
    }
}

/// Whether the word has a form at the place.
pub fn word_fits(place: Place<'_>, word: &[u8]) -> bool
    ensures { result ≡ plain_forms.word_fits (place_view place.entry) word.now }
{
    match place {
        Place::Term => integer_of(word, WIDE).is_some()
            || is_name(word)
            || bound_number(word).is_some(),
        Place::Loc => is_word(b"none", word) || is_word(b"all", word),
        Place::Formula => is_word(b"true", word) || is_word(b"false", word),
        Place::Expr => literal_of(word).is_some() || is_name(word),
        Place::Sort => sort_of_word(word).is_some(),
        Place::Kind => is_word(b"int[]", word) || is_name(word),
        Place::Name => is_name(word),
        Place::Result => is_word(b"-", word) || is_name(word),
        Place::Loop => loop_of(word).is_some(),
        Place::Label => label_of(word).is_some(),
        Place::Word(this) => is_word(this, word),
        Place::Stmt | Place::Code | Place::Pairs | Place::Pair | Place::Array => false,
    }
}

// The sort that a letter tells.
fn letter_sort(letter: u8) -> Option<Sort>
    ensures { result ≡ plain_names.letter_sort letter }
{
    match letter {
        b'i' => Some(Sort::Int),
        b'b' => Some(Sort::Bool),
        b'r' => Some(Sort::Ref),
        b'h' => Some(Sort::Heap),
        b'f' => Some(Sort::Field),
        _ => None,
    }
}

/// The sort of a name that begins with a sign and a sort's letter.
pub fn special_sort(sign: u8, word: &[u8]) -> Option<Sort>
    ensures { result ≡ plain_names.special_sort sign word.now }
{
    match word {
        [first, letter, more @ ..] => {
            if *first == sign && are_special_bytes(more) {
                letter_sort(*letter)
            } else {
                None
            }
        }
        _ => None,
    }
}

/// `true` or `false`.
pub fn truth_of(word: &[u8]) -> Option<bool>
    ensures { result ≡ plain_names.truth_of word.now }
{
    if is_word(b"true", word) {
        Some(true)
    } else if is_word(b"false", word) {
        Some(false)
    } else {
        None
    }
}
