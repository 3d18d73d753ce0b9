//! The meaning of the language, as definitions, and its laws. No call of this crate does any work: each states a law.
#![tactic(auto)]

pub mod worked;

ghost use Rattle.std.specs.Prelude.{◌≡◌, true, false, [], codes};
ghost use Rattle.setl_model_runs.specs.Events.{Done, Spent, Stopped, Wide, Form, Unfit, Nothing};
ghost use Rattle.setl_text.specs.Texts.{print_line};
ghost use Rattle.setl_model.specs.Means.{Means};
ghost use Rattle.setl_model.specs.Samples.{mixed_values, nested_values, empty_program, growing_set, copied_set, several_lines};
ghost use Rattle.setl_program.specs.Source.{f, s};
ghost use Rattle.setl_model.specs.LanguageSamples.{images_of_a_map, too_wide, fail_alone, counting, reading, emptied_set, passed_in_and_out, taken_back, enumeration_or_former, arithmetic, folds, subsets, long_range, declared_set, declared_map, queens, taken_apart, nested_places, undeclared_own};
ghost use Rattle.setl_model.specs.StraightRuns.{AssignLeads, CombineLeads, PrintLeads};
ghost use Rattle.setl_model.specs.Laws.{HoldsWhatWasStored, StoresChangeOneVariable, OneStep, OneMeaning, StepsGrow, ReachedOutputIsFront, PrintInHandIsFront, DeclarationsOnlyCut, DeclarationsChangeNothing};

/// A variable holds what was stored in it last, and a store changes no other variable. So an assignment copies: no two
/// variables ever share a value that changes.
pub fn stores_change_one_variable()
    ensures stored { HoldsWhatWasStored }
    ensures elsewhere { StoresChangeOneVariable }
{}

/// A state of a run has at most one next state, and a program on an input with some number of turns has at most one
/// output and one end.
pub fn one_meaning()
    ensures one_step { OneStep }
    ensures one_meaning { OneMeaning }
{}

/// No step takes back output or events. So the output of each reached state, with the line of the `print` in hand
/// behind it, is the front of the whole output.
pub fn output_grows()
    ensures steps { StepsGrow }
    ensures reached { ReachedOutputIsFront }
    ensures print_in_hand { PrintInHandIsFront }
{}

/// Declarations change nothing as long as values fit: with them a run writes the front of what it writes without, and
/// all of it, with the same end, unless it stops at a store whose value doesn't fit.
pub fn declarations_keep_the_meaning()
    ensures front { DeclarationsOnlyCut }
    ensures same { DeclarationsChangeNothing }
{}

/// Where the steps of a statement lead whose expressions are literals, names and operators without a charge. An
/// assignment stores the value of its right side, an update what the operator makes of the variable's value and the right
/// side, and `print` writes the line of the values of its arguments. Each then goes on with the next statement and
/// changes nothing else.
pub fn statements_lead()
    ensures assign { AssignLeads }
    ensures update { CombineLeads }
    ensures print { PrintLeads }
{}

/// Worked programs. The empty one writes nothing. A set enumeration drops repeats and is written in rising order. A
/// copy of a set stays as it was when the first changes. Each `print` writes one line with a blank between two values.
pub fn worked_programs()
    ensures empty { Means empty_program [] 0 true [] Done }
    ensures growing_set { Means growing_set [] 0 true (codes "{1 2 3 5} 7\n") Done }
    ensures copied_set { Means copied_set [] 0 true (codes "{1 2} {1}\n") Done }
    ensures several_lines { Means several_lines [] 0 true (codes "\n{} 10 *\n") Done }
{}

/// Worked texts. A string stands as it is where it is a whole argument of `print`, and between apostrophes with each
/// apostrophe doubled inside another value.
pub fn worked_texts()
    ensures mixed_values { print_line mixed_values ≡ codes "{1 2 3} [1 * 2] it's\n" }
    ensures nested_values { print_line nested_values ≡ codes "{true -7 'it''s' #7} [] * false\n" }
{}

/// Worked programs of operators: images of a map, a sum past 128 bits, quotients and remainders, folds, sets of subsets,
/// a range for which too few turns are left, and an enumeration beside a former.
pub fn worked_operators()
    ensures images_of_a_map { Means images_of_a_map [] 9 true (codes "* {2 3} 5 {}\n") Done }
    ensures too_wide { Means too_wide [] 9 true [] (Stopped Wide 2) }
    ensures arithmetic { Means arithmetic [] 0 true (codes "-3 1 1 1024\n") Done }
    ensures folds { Means folds [] 4 true (codes "10 * 9\n") Done }
    ensures subsets { Means subsets [] 7 true (codes "{{} {1} {1 2} {2}} {{1 2} {1 3} {2 3}}\n") Done }
    ensures long_range { Means long_range [] 10 true [] Spent }
    ensures enumeration_or_former { Means enumeration_or_former [] 1 true (codes "{true} {}\n") Done }
{}

/// Worked programs of statements: a loop with too few and with enough turns, values that are read, a loop whose set is
/// emptied, a tuple that is taken apart, and a part of a part.
pub fn worked_statements()
    ensures counting { Means counting [] 3 true (codes "1\n2\n3\n") Spent }
    ensures all_counted { Means counting [] 5 true (codes "1\n2\n3\n4\n5\n") Done }
    ensures reading { Means reading (codes "{1 [2 'a']} 7\n") 0 true (codes "{1 [2 'a']} 7 * true\n") Done }
    ensures reading_stops { Means reading (codes "{1 [2") 0 true [] (Stopped Form 2) }
    ensures emptied_set { Means emptied_set [] 3 true (codes "{} 3\n") Done }
    ensures taken_apart { Means taken_apart [] 0 true (codes "1 2 1 2 []\n") Done }
    ensures nested_places { Means nested_places [] 9 true (codes "1 7\n2 9\n2 *\n2 5\n") Done }
{}

/// Worked programs of procedures and backtracking: a variable that is passed in and out, `fail` with nothing kept, a
/// call that goes back into a procedure that has returned, and four queens.
pub fn worked_procedures()
    ensures passed_in_and_out { Means passed_in_and_out [] 1 true (codes "2\n") Done }
    ensures fail_alone { Means fail_alone [] 9 true [] (Stopped Nothing 2) }
    ensures taken_back { Means taken_back [] 2 true (codes "1\n2\n") Done }
    ensures queens { Means queens [] 200 true (codes "[2 4 1 3]\n") Done }
{}

/// Worked programs with declarations: a set that stops fitting, the same without declarations, a map that would have two
/// images, and a procedure's own variable with the name of a declared one, which isn't declared.
pub fn worked_declarations()
    ensures declared_set { Means declared_set [] 0 true (codes "{1}\n") (Stopped (Unfit s) 4) }
    ensures undeclared_set { Means declared_set [] 0 false (codes "{1}\n{1 'a'}\n") Done }
    ensures declared_map { Means declared_map [] 0 true (codes "{}\n{[1 5]}\n") (Stopped (Unfit f) 4) }
    ensures undeclared_own { Means undeclared_own [] 1 true (codes "1\n") Done }
{}
