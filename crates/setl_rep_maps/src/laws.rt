//! Laws of maps that are held as tables. The functions have no effect: each hands a proof the laws that it is named for.

ghost use Rattle.setl_rep_maps.specs.Laws.{StandsForPairs, ContentsStandForImages, SingleContentsStandForImages, NoImagesElsewhere, PutsAreImages, SinglePutsAreImages, ImagesMakePairs, NumbersAreDomains};

/// The content of a point stands for its image, or for the set of its images.
pub fn contents_stand_for_images()
    ensures pairs { StandsForPairs }
    ensures images { ContentsStandForImages }
    ensures image { SingleContentsStandForImages }
    ensures none { NoImagesElsewhere }
{
    setl_rep_tables::laws::tables_have_their_pairs();
}

/// A content that is put makes its images those of its point, and the map stands for the one with these put.
pub fn puts_are_images()
    ensures images { PutsAreImages }
    ensures image { SinglePutsAreImages }
{
    setl_set::laws::rising_lists_agree();
    setl_set::laws::tests_are_exact();
    setl_set::laws::operations_have_their_members();
    setl_rep_tables::laws::tables_have_their_pairs();
}

/// One more image in the content of a point is one more pair in the map.
pub fn images_make_pairs()
    ensures { ImagesMakePairs }
{
    setl_set::laws::rising_lists_agree();
    setl_set::laws::tests_are_exact();
    setl_set::laws::operations_have_their_members();
    setl_rep_tables::laws::tables_have_their_pairs();
}

/// The numbers that have a content are those of the domain.
pub fn numbers_are_domains()
    ensures { NumbersAreDomains }
{
    setl_set::laws::rising_lists_agree();
    setl_set::laws::tests_are_exact();
    setl_set::laws::operations_have_their_members();
    setl_rep_tables::laws::tables_have_their_pairs();
    setl_rep_forms::laws::sets_have_their_members();
}
