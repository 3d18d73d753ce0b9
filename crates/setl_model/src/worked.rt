//! Worked programs, topic by topic. Each table has programs with what they read, write and tell, and how they end.

ghost use Rattle.setl_model.specs.Table.{AllHold, AllTell, AllDump};
ghost use Rattle.setl_model.specs.worked.Integers.{integer_rows, wide_rows, integer_stops, boolean_rows};
ghost use Rattle.setl_model.specs.worked.Comparisons.{equality_rows, order_rows, membership_rows, kind_rows, canonical_rows};
ghost use Rattle.setl_model.specs.worked.Sets.{set_rows, enumeration_rows, subset_rows, depth_rows};
ghost use Rattle.setl_model.specs.worked.Sequences.{sequence_rows, copy_rows, component_rows, slice_rows};
ghost use Rattle.setl_model.specs.worked.Ranges.{range_rows};
ghost use Rattle.setl_model.specs.worked.Maps.{map_rows, put_rows, tuple_put_rows};
ghost use Rattle.setl_model.specs.worked.Updates.{update_rows, nested_rows, taking_rows, parting_rows};
ghost use Rattle.setl_model.specs.worked.Folds.{fold_rows, text_rows};
ghost use Rattle.setl_model.specs.worked.Loops.{source_rows, pattern_rows, loop_rows, jump_rows, while_rows, choice_rows};
ghost use Rattle.setl_model.specs.worked.Formers.{former_rows, own_name_rows, selection_rows, former_stops};
ghost use Rattle.setl_model.specs.worked.Quantifiers.{quantifier_rows};
ghost use Rattle.setl_model.specs.worked.Procedures.{call_rows, passing_rows, own_variable_rows};
ghost use Rattle.setl_model.specs.worked.Backtracking.{back_rows, back_input_rows};
ghost use Rattle.setl_model.specs.worked.Reading.{reading_rows, eof_rows, reading_stops};
ghost use Rattle.setl_model.specs.worked.Declarations.{mode_rows, whole_value_rows, every_store_rows};
ghost use Rattle.setl_model.specs.worked.Events.{event_rows};
ghost use Rattle.setl_model.specs.worked.Whole.{whole_rows};
ghost use Rattle.setl_model.specs.worked.Dumps.{dump_rows};

/// Worked rows of integers and booleans.
pub fn integers()
    ensures integer_rows { AllHold integer_rows }
    ensures wide_rows { AllHold wide_rows }
    ensures integer_stops { AllHold integer_stops }
    ensures boolean_rows { AllHold boolean_rows }
{}

/// Worked rows of comparisons, kinds and the canonical order.
pub fn comparisons()
    ensures equality_rows { AllHold equality_rows }
    ensures order_rows { AllHold order_rows }
    ensures membership_rows { AllHold membership_rows }
    ensures kind_rows { AllHold kind_rows }
    ensures canonical_rows { AllHold canonical_rows }
{}

/// Worked rows of sets.
pub fn sets()
    ensures set_rows { AllHold set_rows }
    ensures enumeration_rows { AllHold enumeration_rows }
    ensures subset_rows { AllHold subset_rows }
    ensures depth_rows { AllHold depth_rows }
{}

/// Worked rows of tuples and strings.
pub fn sequences()
    ensures sequence_rows { AllHold sequence_rows }
    ensures copy_rows { AllHold copy_rows }
    ensures component_rows { AllHold component_rows }
    ensures slice_rows { AllHold slice_rows }
{}

/// Worked rows of ranges.
pub fn ranges()
    ensures range_rows { AllHold range_rows }
{}

/// Worked rows of maps.
pub fn maps()
    ensures map_rows { AllHold map_rows }
    ensures put_rows { AllHold put_rows }
    ensures tuple_put_rows { AllHold tuple_put_rows }
{}

/// Worked rows of updates of places.
pub fn updates()
    ensures update_rows { AllHold update_rows }
    ensures nested_rows { AllHold nested_rows }
    ensures taking_rows { AllHold taking_rows }
    ensures parting_rows { AllHold parting_rows }
{}

/// Worked rows of folds and texts.
pub fn folds()
    ensures fold_rows { AllHold fold_rows }
    ensures text_rows { AllHold text_rows }
{}

/// Worked rows of loops and iterators.
pub fn loops()
    ensures source_rows { AllHold source_rows }
    ensures pattern_rows { AllHold pattern_rows }
    ensures loop_rows { AllHold loop_rows }
    ensures jump_rows { AllHold jump_rows }
    ensures while_rows { AllHold while_rows }
    ensures choice_rows { AllHold choice_rows }
{}

/// Worked rows of formers.
pub fn formers()
    ensures former_rows { AllHold former_rows }
    ensures own_name_rows { AllHold own_name_rows }
    ensures selection_rows { AllHold selection_rows }
    ensures former_stops { AllHold former_stops }
{}

/// Worked rows of quantifiers.
pub fn quantifiers()
    ensures quantifier_rows { AllHold quantifier_rows }
{}

/// Worked rows of procedures.
pub fn procedures()
    ensures call_rows { AllHold call_rows }
    ensures passing_rows { AllHold passing_rows }
    ensures own_variable_rows { AllHold own_variable_rows }
{}

/// Worked rows of backtracking.
pub fn backtracking()
    ensures back_rows { AllHold back_rows }
    ensures back_input_rows { AllHold back_input_rows }
{}

/// Worked rows of reading.
pub fn reading()
    ensures reading_rows { AllHold reading_rows }
    ensures eof_rows { AllHold eof_rows }
    ensures reading_stops { AllHold reading_stops }
{}

/// Worked rows of declarations.
pub fn declarations()
    ensures mode_rows { AllHold mode_rows }
    ensures whole_value_rows { AllHold whole_value_rows }
    ensures every_store_rows { AllHold every_store_rows }
{}

/// Worked rows of events.
pub fn events()
    ensures event_rows { AllTell event_rows }
{}

/// Worked rows of whole programs.
pub fn whole()
    ensures whole_rows { AllHold whole_rows }
{}

/// Worked rows of dumps.
pub fn dumps()
    ensures dump_rows { AllDump dump_rows }
{}
