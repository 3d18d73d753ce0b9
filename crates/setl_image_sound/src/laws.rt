//! What sound images give.

ghost use Rattle.setl_image_sound.specs.Laws.{SoundImagesEnd, NoImageIsStuck, OnlyMainIsDeclared};

/// Every run of the code of a sound image ends, for every input and bound on turns, and none is stuck: no operand is ever
/// missing, and no variable is read that was taken. An image declares variables of its main program alone.
pub fn sound_images_run()
    ensures ends { SoundImagesEnd }
    ensures not_stuck { NoImageIsStuck }
    ensures only_main { OnlyMainIsDeclared }
{
    setl_code_soundness::every_run_of_sound_code_ends();
}
