//! Modes that words write: in their order, with no brackets and an attribute before each set and map, as
//! `remote_smap elmt int sparse_set elmt int`. `elmt` names the base 0, and `other` the base 1.

use setl_modes::{Form, Mode};
use setl_tree::Boxed;
use std::alloc::{AllocError, Global};

/// The mode that these words write.
pub fn mode(alloc: Global, words: &str) -> Result<Mode, AllocError> {
    let mut made = Vec::new(alloc);
    for word in words.rsplit(' ') {
        let next = mode_of_word(alloc, word, &mut made)?;
        made.push(next)?;
    }
    Ok(made.pop().unwrap_or(Mode::General))
}

// The mode that a word makes of the modes behind it.
fn mode_of_word(alloc: Global, word: &str, made: &mut Vec<Mode>) -> Result<Mode, AllocError> {
    match word {
        "int" => Ok(Mode::Int),
        "elmt" => Ok(Mode::Elmt(0, taken(alloc, made)?)),
        "other" => Ok(Mode::Elmt(1, taken(alloc, made)?)),
        "tuple" => Ok(Mode::Tuple(taken(alloc, made)?)),
        _ => mode_with_form(alloc, word, made),
    }
}

// The same of a set or a map.
fn mode_with_form(alloc: Global, word: &str, made: &mut Vec<Mode>) -> Result<Mode, AllocError> {
    let (attribute, kind) = word.split_once('_').unwrap_or((word, ""));
    let form = form(attribute);
    match kind {
        "set" => Ok(Mode::Set(form, taken(alloc, made)?)),
        "smap" => smap(alloc, form, made),
        "mmap" => mmap(alloc, form, made),
        _ => Ok(Mode::General),
    }
}

fn smap(alloc: Global, form: Form, made: &mut Vec<Mode>) -> Result<Mode, AllocError> {
    let domain = taken(alloc, made)?;
    let range = taken(alloc, made)?;
    Ok(Mode::Smap(form, domain, range))
}

fn mmap(alloc: Global, form: Form, made: &mut Vec<Mode>) -> Result<Mode, AllocError> {
    let domain = taken(alloc, made)?;
    let images = taken(alloc, made)?;
    Ok(Mode::Mmap(form, domain, images))
}

fn form(attribute: &str) -> Form {
    match attribute {
        "local" => Form::Local,
        "remote" => Form::Remote,
        "sparse" => Form::Sparse,
        _ => Form::Plain,
    }
}

// The last mode that was made, taken out.
fn taken(alloc: Global, made: &mut Vec<Mode>) -> Result<Boxed<Mode>, AllocError> {
    Boxed::new(alloc, made.pop().unwrap_or(Mode::General))
}
