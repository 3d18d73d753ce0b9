//! The name of the body at work.

ghost use Rattle.std.specs.Prelude.{◌≡◌, List, ℕ, Option};
ghost use Rattle.setl_code.specs.Plain.{plain_code};
ghost use Rattle.setl_code_simulation.specs.States.{IsBody};
ghost use Rattle.setl_debug_screen.specs.Lines.{place_name};

use setl_code::Code;

/// The name of the body of this number: `main`, or that of the procedure. A body that there isn't has no name.
pub(crate) fn name_of_body(code: &Code, body: u32) -> &[u8]
    ensures { (procedure : Option (List ℕ)) → IsBody (plain_code code.now) body procedure → result.now ≡ place_name procedure }
{
    if body == 0 {
        return b"main";
    }
    match code.bodies.as_slice().get(body as usize) {
        Some(body) => body.name.bytes(),
        None => &[],
    }
}
