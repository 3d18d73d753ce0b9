//! A law of the definition. The function does nothing: what it ensures is the law.
ghost use Rattle.setl_explain_next.specs.Next.{OneList};

/// A place of a source has one list of the kinds that are told of it.
pub fn next_kinds_are_one_list()
    ensures { OneList }
{}
