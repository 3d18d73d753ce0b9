//! Laws of tables. The functions have no effect: each hands a proof the laws that it is named for.

ghost use Rattle.setl_rep_tables.specs.Tables.{MembersOfTables, PairsOfTables, AllImagesOfTables, ImagesOfTables, NoImagesElsewhere, SlotsAreKeyed};

/// The pairs of a table, and the images of a value.
pub fn tables_have_their_pairs()
    ensures members { MembersOfTables }
    ensures pairs { PairsOfTables }
    ensures all_images { AllImagesOfTables }
    ensures images { ImagesOfTables }
    ensures none { NoImagesElsewhere }
{
    setl_set::laws::rising_lists_agree();
    setl_set::laws::tests_are_exact();
    setl_set::laws::operations_have_their_members();
    setl_map::laws::images_are_by_pairs();
}

/// The entries of slots are keyed, and the content of a number is that of its slot.
pub fn slots_are_keyed()
    ensures { SlotsAreKeyed }
{}
