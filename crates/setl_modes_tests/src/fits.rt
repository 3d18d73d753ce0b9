//! Values, modes and what fits.

use setl_io::SureSource;
use setl_modes::{Form, Mode};
use setl_modes_fit::fits;
use setl_text::{Got, Reader};
use setl_tree::Boxed;
use setl_value::Value;
use std::alloc::{AllocError, Global};
use std::test::Fail;

/// Values, modes and what fits, a line each. A mode is written with its words in their order and no brackets, as
/// `mmap int set int` for mmap{int} set(int), and `elmt int` for the members of a base of mode int. A value is written
/// as a denotation, and `atom` for an atom, which has none.
const ROWS: &str = "fits | int | *
fits | mmap int int | *
fits | general | 1
fits | general | {[1 2] 3}
fits | int | -5
misfits | int | 'a'
misfits | int | {}
misfits | int | []
fits | string | 'a'
misfits | string | 1
fits | boolean | false
misfits | boolean | 1
misfits | atom | 1
fits | elmt string | 'a'
misfits | elmt string | 1
fits | set elmt int | {1 2}
misfits | set elmt int | {1 'a'}
misfits | elmt smap int int | {[1 1] [1 2]}
fits | smap elmt int elmt string | {[1 'a'] [2 'b']}
misfits | smap elmt int elmt string | {['a' 'b']}
fits | set int | {}
fits | set int | {1 2 3}
misfits | set int | {1 2 'a'}
misfits | set int | [1]
fits | set set int | {{} {1}}
misfits | set set int | {{} {'a'}}
fits | tuple int | []
fits | tuple int | [1 * 2]
misfits | tuple int | [* 'a']
misfits | tuple int | {1}
fits | tuple set smap int int | [{{[1 2]} {}} * {{[1 1] [2 1]}}]
misfits | tuple set smap int int | [{} {{[1 1] [1 2]}}]
fits | smap int int | {}
fits | smap int int | {[1 2] [2 2]}
misfits | smap int int | {[1 1] [1 2]}
misfits | smap int int | {[1 1] [2 1] [2 5] [3 1]}
misfits | smap int int | {1}
misfits | smap int int | {[1 2] [3]}
misfits | smap int int | {[1 2] [1 2 3]}
misfits | smap int int | {[1 *]}
misfits | smap int int | {[* 1]}
misfits | smap int string | {[1 'a'] [2 3]}
misfits | smap string int | {['a' 1] [2 3]}
fits | smap general general | {[{1} 1] [{2} 1]}
misfits | smap general general | {[{1} 1] [{1} 2]}
misfits | smap int int | [[1 2]]
fits | mmap int set int | {}
fits | mmap int set int | {[1 1] [1 2] [2 1]}
misfits | mmap int set int | {[1 1] [1 'a']}
misfits | mmap int set int | {[1 1] ['a' 1]}
misfits | mmap int set int | {[1 1] [2 *]}
fits | mmap int general | {[1 1] [1 'a']}
misfits | mmap int general | {[1 1] 2}
misfits | mmap int general | []
fits | mmap int int | {}
misfits | mmap int int | {[1 1]}
misfits | mmap int tuple int | {[1 [1]]}
fits | mmap int elmt set int | {[1 1] [1 2]}
fits | mmap int smap int int | {[1 [1 1]] [1 [2 1]] [2 [1 5]]}
misfits | mmap int smap int int | {[1 [1 1]] [1 [1 2]]}
misfits | mmap int smap int int | {[1 1]}
misfits | mmap int smap int string | {[1 [1 2]]}
misfits | mmap int elmt smap int int | {[1 [1 1]] [1 [1 2]]}
fits | mmap int mmap int set int | {[1 [1 1]] [1 [1 2]] [2 [1 1]]}
misfits | mmap int mmap int set int | {[1 [1 1]] [1 [1 'a']]}
misfits | mmap int mmap int set int | {[1 [1 1]] [1 ['a' 1]]}
misfits | mmap int mmap int int | {[1 [1 1]]}
fits | mmap int mmap int int | {}
fits | mmap int mmap int smap int int | {[1 [1 [1 1]]] [1 [1 [2 1]]] [1 [2 [1 2]]] [2 [1 [1 2]]]}
misfits | mmap int mmap int smap int int | {[1 [1 [1 1]]] [1 [1 [1 2]]]}
fits | atom | atom
fits | general | atom
misfits | int | atom";

/// The last mode that was made, taken out.
fn taken(alloc: Global, made: &mut Vec<Mode>) -> Result<Boxed<Mode>, AllocError> {
    Boxed::new(alloc, made.pop().unwrap_or(Mode::General))
}

/// The mode that a word makes of the modes behind it.
fn mode_of_word(alloc: Global, word: &str, made: &mut Vec<Mode>) -> Result<Mode, AllocError> {
    match word {
        "int" => Ok(Mode::Int),
        "string" => Ok(Mode::Str),
        "boolean" => Ok(Mode::Boolean),
        "atom" => Ok(Mode::Atom),
        "elmt" => Ok(Mode::Elmt(0, taken(alloc, made)?)),
        "set" => Ok(Mode::Set(Form::Sparse, taken(alloc, made)?)),
        "tuple" => Ok(Mode::Tuple(taken(alloc, made)?)),
        "smap" => map_mode(alloc, true, made),
        "mmap" => map_mode(alloc, false, made),
        _ => Ok(Mode::General),
    }
}

/// The map of the two modes behind its word.
fn map_mode(alloc: Global, single: bool, made: &mut Vec<Mode>) -> Result<Mode, AllocError> {
    let domain = taken(alloc, made)?;
    let images = taken(alloc, made)?;
    if single {
        Ok(Mode::Smap(Form::Plain, domain, images))
    } else {
        Ok(Mode::Mmap(Form::Local, domain, images))
    }
}

/// The mode that these words write.
fn mode(alloc: Global, words: &str) -> Result<Mode, AllocError> {
    let mut made = Vec::new(alloc);
    for word in words.rsplit(' ') {
        let next = mode_of_word(alloc, word, &mut made)?;
        made.push(next)?;
    }
    Ok(made.pop().unwrap_or(Mode::General))
}

/// Whether a value or `om` fits a mode, as a word.
fn answer(mode: &Mode, value: &Option<Value>) -> &'static str {
    if fits(mode, value) { "fits" } else { "misfits" }
}

/// Whether the value or `om` that is denoted fits this mode, as a word.
fn answer_to(alloc: Global, mode: &Mode, denotation: &str) -> Result<&'static str, AllocError> {
    if denotation == "atom" {
        return Ok(answer(mode, &Some(Value::Atom(7))));
    }
    let mut input = SureSource::new(denotation.as_bytes().to_vec(alloc)?);
    let mut reader = Reader::new(alloc)?;
    Ok(match reader.next(&mut input) {
        Ok(Got::Value(v)) => answer(mode, &Some(v)),
        Ok(Got::Om) => answer(mode, &None),
        _ => "nothing is denoted",
    })
}

/// Whether the value or `om` that is denoted fits the mode that these words write, as a word.
fn answer_in(alloc: Global, words: &str, denotation: &str) -> Result<&'static str, AllocError> {
    let mode = mode(alloc, words)?;
    answer_to(alloc, &mode, denotation)
}

#[test]
fn values_fit_modes(rt: HostRuntime) -> Result<(), Fail> {
    let alloc = rt.alloc();
    for row in ROWS.lines() {
        let (want, rest) = row.split_once(" | ").unwrap_or((row, ""));
        let (words, denotation) = rest.split_once(" | ").unwrap_or((rest, ""));
        assert_eq!(rt; answer_in(alloc, words, denotation)?, want, "{row}");
    }
    Ok(())
}
