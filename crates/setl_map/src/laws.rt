//! Laws of the definitions that contracts of this crate cite. The functions have no effect: each hands a proof the law
//! that it is named for.

ghost use Rattle.setl_map.specs.Laws.{ImagesAreShallower, ImagesByPairs};

/// y is an image of x exactly where the pair of x and y is a member.
pub fn images_are_by_pairs()
    ensures { ImagesByPairs }
{
    setl_set::laws::tests_are_exact();
}

/// A map is at least as deep as the set of images that was put at one of its points.
pub fn images_are_shallower()
    ensures { ImagesAreShallower }
{}
