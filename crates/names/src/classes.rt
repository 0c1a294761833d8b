// The classes of strings: identifiers, path names, plain strings.
ghost use Rattle.std.specs.Prelude.{◌≡◌, List, ◌∷◌, ℕ};
ghost use Rattle.names.specs.Names.{letter, letter_or_digit, identifier, plain_byte, plain, path_name, path_or_none};
ghost use Rattle.names.specs.Class.{class_of, path_from};

use crate::{Class, Place};

#[tactic(auto, unfolding(crate::specs::Names::letter))]
fn is_letter(b: u8) -> bool
    ensures { result ≡ letter b }
{
    b.is_ascii_alphabetic() || b == b'_'
}

#[tactic(auto, unfolding(crate::specs::Names::letter_or_digit, crate::specs::Names::letter))]
fn is_letter_or_digit(b: u8) -> bool
    ensures { result ≡ letter_or_digit b }
{
    b.is_ascii_alphanumeric() || b == b'_'
}

fn is_identifier(s: &[u8]) -> bool
    ensures { result ≡ identifier s.now }
{
    let Some((first, rest)) = s.split_first() else {
        return false;
    };
    is_letter(*first) && rest.iter().all(|b| is_letter_or_digit(*b))
}

// The range is asked first, and then the three bytes in it that are not plain: with these three in
// the first arm long strings took 1.7 times the time. `is_ascii_graphic` would leave out the space,
// so that it would stand beside it.
#[tactic(auto, unfolding(crate::specs::Names::plain_byte))]
fn is_plain_byte(b: u8) -> bool
    ensures { result ≡ plain_byte b }
{
    match b {
        0x20..=0x7E => !matches!(b, b'"' | b'\'' | b'\\'),
        _ => false,
    }
}

// A loop and no `all`: for `all` the test whether a byte is left stands at the head of the machine's
// loop and not at its end, and long strings took 1.7 times the time.
fn is_plain(s: &[u8]) -> bool
    ensures { result ≡ plain s.now }
{
    for b in s {
        if !is_plain_byte(*b) {
            return false;
        }
    }
    true
}

// What is left of a path name once `b` is read.
#[tactic(auto, unfolding(crate::specs::Names::path_name, crate::specs::Names::path_tail, crate::specs::Names::second_colon))]
fn past(place: Place, b: u8) -> Place
    ensures { (w : List ℕ) → path_from result w ≡ path_from place (b ∷ w) }
{
    match place {
        Place::Inside if is_letter_or_digit(b) => Place::Inside,
        Place::Inside if b == b':' => Place::Colon,
        Place::Start if is_letter(b) => Place::Inside,
        Place::Colon if b == b':' => Place::Start,
        _ => Place::Nowhere,
    }
}

fn is_path_name(s: &[u8]) -> bool
    ensures { result ≡ path_name s.now }
{
    let mut place = Place::Start;
    for b in s {
        place = past(place, *b);
    }
    place == Place::Inside
}

#[tactic(auto, unfolding(crate::specs::Names::path_or_none))]
fn is_path_or_none(s: &[u8]) -> bool
    ensures { result ≡ path_or_none s.now }
{
    s.is_empty() || is_path_name(s)
}

// Whether a string is of a class. The class is a value, and no closure: the readers of strings hand
// it on, and their contracts name it by `class_of class`; of a closure each of them would have to
// ask what it answers.
pub fn in_class(class: Class, s: &[u8]) -> bool
    ensures { result ≡ class_of class s.now }
{
    match class {
        Class::PathName => is_path_name(s),
        Class::Plain => is_plain(s),
        Class::Identifier => is_identifier(s),
        Class::PathOrNone => is_path_or_none(s),
    }
}
