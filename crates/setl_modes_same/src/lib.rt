//! Whether modes are the same.
#![tactic(auto)]

ghost use Rattle.std.specs.Prelude.{◌≡◌};
ghost use Rattle.setl_modes.specs.Modes.{mode_of};
ghost use Rattle.setl_modes_same.specs.Same.{same_form, same_mode};

use setl_modes::{Form, Mode};

/// Whether two modes are the same.
pub fn same_mode(a: &Mode, b: &Mode) -> bool
    ensures { result ≡ same_mode (mode_of a.now) (mode_of b.now) }
{
    match (a, b) {
        (Mode::General, Mode::General) => true,
        (Mode::Int, Mode::Int) => true,
        (Mode::Str, Mode::Str) => true,
        (Mode::Boolean, Mode::Boolean) => true,
        (Mode::Atom, Mode::Atom) => true,
        (Mode::Elmt(j, m), Mode::Elmt(k, n)) => j == k && same_mode(m.get(), n.get()),
        (Mode::Set(f, m), Mode::Set(g, n)) => same_form(*f, *g) && same_mode(m.get(), n.get()),
        (Mode::Tuple(m), Mode::Tuple(n)) => same_mode(m.get(), n.get()),
        (Mode::Smap(f, d, r), Mode::Smap(g, e, s)) => {
            same_form(*f, *g) && same_mode(d.get(), e.get()) && same_mode(r.get(), s.get())
        }
        (Mode::Mmap(f, d, r), Mode::Mmap(g, e, s)) => {
            same_form(*f, *g) && same_mode(d.get(), e.get()) && same_mode(r.get(), s.get())
        }
        _ => false,
    }
}

// Whether two forms are the same.
fn same_form(f: Form, g: Form) -> bool
    ensures { result ≡ same_form f g }
{
    match (f, g) {
        (Form::Plain, Form::Plain) => true,
        (Form::Local, Form::Local) => true,
        (Form::Remote, Form::Remote) => true,
        (Form::Sparse, Form::Sparse) => true,
        _ => false,
    }
}
