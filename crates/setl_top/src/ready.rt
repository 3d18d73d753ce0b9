//! What is ready to run: code with the declarations of its variables, of a source or of a code file.
ghost use Rattle.std.specs.Prelude.{◌≡◌, map, IfOk};
ghost use Rattle.setl_code.specs.MayRun.{Differ};
ghost use Rattle.setl_image.specs.Views.{image_of};
ghost use Rattle.setl_image_names.specs.Once.{variable_of};
ghost use Rattle.setl_image_sound.specs.SoundImage.{SoundImage};
ghost use Rattle.setl_model_runs.specs.Variable as variable;
ghost use Rattle.setl_modes.specs.Modes.{mode_of};
ghost use Rattle.setl_program.specs.code.Plain.{plain_declared};
ghost use Rattle.setl_program_laws.specs.Claims.{IsAccepted};
ghost use Rattle.setl_top.specs.Runnable as runnable;
ghost use Rattle.setl_top.specs.Runnable.{of_tree};
ghost use Rattle.setl_top.specs.code.Ready.{IsReady};
ghost use Rattle.setl_top_rules.specs.Rules.{AreModes};

use crate::coding::{code_of_program, program_of_source};
use crate::front::Checked;
use setl_code::Code;
use setl_image::Image;
use setl_image_names::different_names;
use setl_modes::{ModeTable, NamedMode};
use setl_modes_declarations::mode_table;
use setl_names::Names;
use setl_program::{Declared, Program, Variable};
use setl_tree::Items;
use std::alloc::{AllocError, Global};

/// Code with its bases and its declared variables.
#[derive(Drop)]
pub struct Ready {
    pub code: Code,
    pub bases: Items<NamedMode>,
    pub declared: Items<Declared>,
}

/// What a source means, ready to run. The error is want of memory.
pub fn ready_of_source(alloc: Global, source: Checked) -> Result<Ready, AllocError>
    requires modes { AreModes source.tree source.modes }
    requires accepted { IsAccepted source.tree }
    ensures { IfOk result (IsReady (of_tree source.tree)) }
{
    let ModeTable { bases, .. } = mode_table(alloc, source.tree.modes.as_slice())?;
    let program = program_of_source(alloc, source)?;
    let code = code_of_program(alloc, &program)?;
    let Program { declared, .. } = program;
    Ok(Ready {
        code,
        bases,
        declared,
    })
}

/// What a code file holds, ready to run. The error is want of memory.
pub fn ready_of_image(alloc: Global, image: Image) -> Result<Ready, AllocError>
    requires { SoundImage (image_of image) }
    ensures { IfOk result (IsReady (runnable.of_image (image_of image))) }
{
    let Image { code, modes } = image;
    let ModeTable { bases, vars } = modes;
    let declared = declared_of(alloc, &code, vars)?;
    Ok(Ready {
        code,
        bases,
        declared,
    })
}

/// The declared variables of a code file by their names. The error is want of memory.
fn declared_of(
    alloc: Global,
    code: &Code,
    modes: Items<NamedMode>,
) -> Result<Items<Declared>, AllocError>
    requires { Differ (map variable.Global code.now.vars) }
    ensures { IfOk result (λ all. map plain_declared all ≡ map (λ d. (variable_of code.now.vars d.name, mode_of d.mode)) modes) }
{
    let Some(vars) = different_names(alloc, code.vars.as_slice())? else {
        unreachable!()
    };
    let mut all = Items::new(alloc);
    for named in modes.into_vec() {
        all.push(declaration(&vars, named))?;
    }
    Ok(all)
}

/// A declared variable with its mode, where `vars` are the names that all bodies see.
fn declaration(vars: &Names, named: NamedMode) -> Declared
    ensures { plain_declared result ≡ (variable_of vars.now named.name, mode_of named.mode) }
{
    let NamedMode { name, mode } = named;
    let variable = if vars.has(name.bytes()) {
        Variable::Global(name)
    } else {
        Variable::Own(0, name)
    };
    Declared { variable, mode }
}
