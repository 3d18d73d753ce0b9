//! Laws of the definitions that contracts of this crate cite. The functions have no effect: each hands a proof the laws
//! that it is named for.

ghost use Rattle.setl_text.specs.Laws.{ReadsExactly, FormStandsFirst};

/// An input is read as a value or `om` with the bytes behind it, as only blanks, or as a fault of one kind, and as
/// exactly one of these: `read_denotation` computes what `Denoted`, `OnlyBlanks` and `ReadFails` say.
pub fn denotations_are_exact()
    ensures { ReadsExactly }
{}

/// Where `ReadFails` says `Form`, it stands at the first byte with which the bytes so far begin no denotation, or at the
/// end of the input inside of one: the bytes before it can be continued to a denotation, and with it they can't.
pub fn form_stands_first()
    ensures { FormStandsFirst }
{}
