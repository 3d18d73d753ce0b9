//! What follows from the definitions alone. The function has no effect: it states laws.

ghost use Rattle.setl_top_images.specs.Laws.{OneImage, OneFlaw, NotCodeAndFlawed};

/// Bytes are the code file of one image, or have one flaw, and not both.
pub fn one_code()
    ensures image { OneImage }
    ensures flaw { OneFlaw }
    ensures not_both { NotCodeAndFlawed }
{
    setl_image_format::images_are_exact();
}
