//! Trees as plain programs.

ghost use Rattle.std.specs.Prelude.{◌≡◌, map};
ghost use Rattle.setl_program.specs.Samples.{term_in_main, operators_parts, operators_terms, selections_parts, selections_terms, ranges_parts, ranges_terms, formers_parts, formers_terms, quantifiers_parts, quantifiers_terms, calls_parts, calls_terms};

/// Worked expressions, each with its plain form: operators, selections, ranges, formers, quantifiers and calls.
pub fn worked_trees()
    ensures operators { map term_in_main operators_parts ≡ operators_terms }
    ensures selections { map term_in_main selections_parts ≡ selections_terms }
    ensures ranges { map term_in_main ranges_parts ≡ ranges_terms }
    ensures formers { map term_in_main formers_parts ≡ formers_terms }
    ensures quantifiers { map term_in_main quantifiers_parts ≡ quantifiers_terms }
    ensures calls { map term_in_main calls_parts ≡ calls_terms }
{}
