//! What is wanted of a line before its answer: the form that its name asks for, and what that has in each place.

use crate::answers::no_arrow;
use crate::saying::{joined, shown};
use host_memory::Global;
use std::alloc::AllocError;
use trace_text::{Line, data, number, register};

// Each command, a revoker's too, what is seen, and what may be given. A place for a register has two letters, and one for another word is in
// capitals.
const FORMS: [&[u8]; 24] = [
    b"malloc cD SIZE",
    b"free cS",
    b"copy cD cS",
    b"setaddr cD cS ADDRESS",
    b"narrow cD cS LENGTH",
    b"andperm cD cS MASK",
    b"storecap cA cS",
    b"loadcap cD cA",
    b"write cA DATA",
    b"show cS",
    b"sweep",
    b"begin",
    b"end",
    b"paint",
    b"visit PAGE",
    b"untag WHERE",
    b"release",
    b"granule ADDRESS",
    b"given live BASE TOP",
    b"given waiting BASE TOP",
    b"given painted BASE TOP",
    b"given epoch",
    b"given register cN TAG DATA",
    b"given granule ADDRESS TAG DATA",
];

// More words than any form has.
const MOST_WORDS: usize = 8;

const NAMES: &[u8] =
    b" there: it begins with malloc, free, copy, setaddr, narrow, andperm, storecap, loadcap, write, show, sweep, begin, end, paint, visit, untag, release, granule or #, or with given before all commands and granules";

const KINDS: &[u8] = b"after given stands live, waiting, painted, epoch, register or granule";

const LATE: &[u8] = b"what is given stands before all commands and granules";

/// What a form has in a place.
#[derive(Clone, Copy)]
enum Place {
    /// The name of the line, or what is given.
    Name,
    Register,
    Number,
    Mask,
    Page,
    /// What a revoker takes a tag of: a granule or a register.
    Where,
    Tag,
    /// An address, or the end of all addresses.
    Top,
    Data,
}

// The word that a line begins with, and none where it has none.
fn first_word<'a>(line: &Line<'a>) -> &'a [u8] {
    match line.split_word() {
        Some((word, _)) => word,
        None => &line.bytes()[..0],
    }
}

/// Whether a line says that it gives something.
pub(crate) fn gives(line: &Line<'_>) -> bool {
    first_word(line) == b"given".as_slice()
}

// Whether a line has the name of a form, and after `given` its kind.
fn is_of_form(line: &Line<'_>, form: &Line<'_>) -> bool {
    let Some((name, words)) = line.split_word() else {
        return false;
    };
    let Some((wanted, places)) = form.split_word() else {
        return false;
    };
    name == wanted && (name != b"given".as_slice() || first_word(&words) == first_word(&places))
}

// The form of a line.
fn form_of(line: &Line<'_>) -> Option<&'static [u8]> {
    for form in FORMS {
        if is_of_form(line, &Line::of_bytes(form)) {
            return Some(form);
        }
    }
    None
}

// The place that this word of a form is.
fn place_of(word: &[u8]) -> Place {
    if word == b"DATA".as_slice() {
        return Place::Data;
    }
    if word == b"MASK".as_slice() {
        return Place::Mask;
    }
    if word == b"PAGE".as_slice() {
        return Place::Page;
    }
    if word == b"WHERE".as_slice() {
        return Place::Where;
    }
    if word == b"TAG".as_slice() {
        return Place::Tag;
    }
    if word == b"TOP".as_slice() {
        return Place::Top;
    }
    if word.len() == 2 {
        return Place::Register;
    }
    match word.first() {
        Some(letter) if letter.is_ascii_uppercase() => Place::Number,
        _ => Place::Name,
    }
}

// Whether a word is a number of a mask.
fn is_mask(word: &[u8]) -> bool {
    match number(word) {
        Some(mask) => mask < 65536,
        None => false,
    }
}

// Whether a word is the number of a page, whatever the heap.
fn is_page(word: &[u8]) -> bool {
    match number(word) {
        Some(page) => page <= u64::from(u32::MAX),
        None => false,
    }
}

impl Place {
    // Whether a word may stand there.
    fn takes(self, word: &[u8]) -> bool {
        match self {
            Place::Name => true,
            Place::Register => register(word).is_ok(),
            Place::Number => number(word).is_some(),
            Place::Mask => is_mask(word),
            Place::Page => is_page(word),
            Place::Where => register(word).is_ok() || number(word).is_some(),
            Place::Tag => word == b"0".as_slice() || word == b"1".as_slice(),
            Place::Top => word == b"0x10000000000000000".as_slice() || number(word).is_some(),
            Place::Data => data(word).is_ok(),
        }
    }

    // What is wanted there.
    fn wanted(self) -> &'static [u8] {
        match self {
            Place::Name => b"a name",
            Place::Register => b"a register, c0 to c31",
            Place::Number => b"a number, decimal or hexadecimal with 0x, below 2^64",
            Place::Mask => b"a mask, a number below 65536",
            Place::Page => b"the number of a page, from 0",
            Place::Where => b"the address of a granule, or a register, c0 to c31",
            Place::Tag => b"a tag, 0 or 1",
            Place::Top =>
                b"a number, decimal or hexadecimal with 0x, below 2^64, or 0x10000000000000000",
            Place::Data => b"data, exactly 32 hexadecimal digits",
        }
    }
}

// The first word of a line that its form doesn't take, with what is wanted in its place.
fn misfit<'a>(line: &Line<'a>, form: &[u8]) -> Option<(&'a [u8], Place)> {
    let mut rest = Line::of_bytes(line.bytes());
    let mut places = Line::of_bytes(form);
    for _ in 0..MOST_WORDS {
        let (word, after) = rest.split_word()?;
        let (name, others) = places.split_word()?;
        let place = place_of(name);
        if !place.takes(word) {
            return Some((word, place));
        }
        rest = after;
        places = others;
    }
    None
}

// Whether an arrow stands in a word, since the blanks around it lack.
fn has_arrow(word: &[u8]) -> bool {
    word.windows(2).any(|two| two == b"->".as_slice())
}

// Whether a line that should have an arrow has none.
fn lacks_arrow(line: &Line<'_>) -> bool {
    !gives(line) && line.split_at_word(b"->").is_none()
}

/// What is wanted of a line that begins with no name, or gives what can't be given there.
pub(crate) fn name_wanted(alloc: Global, line: &Line<'_>) -> Result<Vec<u8, Global>, AllocError> {
    if gives(line) {
        return joined(alloc, &[if form_of(line).is_some() { LATE } else { KINDS }]);
    }
    let name = shown(alloc, first_word(line))?;
    joined(alloc, &[b"no line begins with ", &name, NAMES])
}

/// What is wanted of a line that has more or fewer words than its form.
pub(crate) fn form_wanted(alloc: Global, line: &Line<'_>) -> Result<Vec<u8, Global>, AllocError> {
    if lacks_arrow(line) {
        return no_arrow(alloc);
    }
    let Some(form) = form_of(line) else {
        return joined(alloc, &[KINDS]);
    };
    let place: &[u8] = if gives(line) {
        b""
    } else {
        b" before its arrow"
    };
    joined(
        alloc,
        &[b"it has more or fewer words", place, b" than '", form, b"'"],
    )
}

/// What is wanted in place of the first word of a line that its form doesn't take.
pub(crate) fn word_wanted(alloc: Global, line: &Line<'_>) -> Result<Vec<u8, Global>, AllocError> {
    let Some(form) = form_of(line) else {
        return joined(alloc, &[KINDS]);
    };
    let Some((word, place)) = misfit(line, form) else {
        return no_arrow(alloc);
    };
    if lacks_arrow(line) && has_arrow(word) {
        return no_arrow(alloc);
    }
    let word = shown(alloc, word)?;
    joined(
        alloc,
        &[
            b"the word ",
            &word,
            b" stands where '",
            form,
            b"' wants ",
            place.wanted(),
        ],
    )
}
