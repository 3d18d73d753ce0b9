//! Rules 21, 22 and 25 to 28: the modes of a section.

ghost use Rattle.std.specs.Prelude.{◌≡◌, [], Option, fold, OnOk, IfOk};
ghost use Rattle.std.specs.List.{list_any};
ghost use Rattle.setl_tree.specs.declared.mode.Attribute.{Attribute as TreeAttribute};
ghost use Rattle.setl_names.specs.Breaks.{earlier, tagged};
ghost use Rattle.setl_names.specs.Names.{with_names};
ghost use Rattle.setl_names.specs.Variables.{var_names};
ghost use Rattle.setl_modes_declarations.specs.Declares.{mode_breaks};
ghost use Rattle.setl_modes_declarations.specs.Rules as spec;
ghost use Rattle.setl_modes_declarations.specs.Rules.{unknown_bases, lines_where, line_parts, line_bases};
ghost use Rattle.setl_modes_declarations.specs.code.Tests.{mode_for_variables};
ghost use Rattle.setl_modes_written.specs.Written.{written, parts};
ghost use Rattle.setl_modes_written.specs.code.Tests as tests;
ghost use Rattle.setl_modes_written.specs.code.Tests.{core_written};

use setl_modes_written::{Test, any_inside, any_part};
use setl_names::{Break, Names, noted, noted_if};
use setl_tree::{Boxed, Core, Items, ReprLine, Text, WrittenMode};
use std::alloc::{AllocError, Global};

/// The first break so far and of the rule that an `elmt` names a known base, in a mode.
#[cycle(unknown)]
fn unknown(first: Option<Break>, known: &Names, m: &WrittenMode) -> Option<Break>
    ensures { result ≡ fold earlier first (tagged 21 (unknown_bases known.now (parts (written m.now)))) }
{
    unknown_in_core(first, known, &m.core)
}

/// The first break so far and of the rule that an `elmt` names a known base, in a mode whose attribute changes nothing.
#[cycle(unknown)]
fn unknown_in_core(first: Option<Break>, known: &Names, x: &Core) -> Option<Break>
    ensures { (a : Option TreeAttribute) → result ≡ fold earlier first (tagged 21 (unknown_bases known.now (parts (core_written x.now a)))) }
{
    match x {
        Core::Elmt(line, base) => noted_if(first, *line, 21, !known.has(base.bytes())),
        Core::Set(m) => unknown(first, known, m.get()),
        Core::Tuple(m) => unknown(first, known, m.get()),
        Core::Smap(domain, range) => {
            let first = unknown(first, known, domain.get());
            unknown(first, known, range.get())
        }
        Core::Mmap(domain, images) => {
            let first = unknown(first, known, domain.get());
            unknown(first, known, images.get())
        }
        _ => first,
    }
}

/// The first break so far and of the rule that an `elmt` names a known base, in a `repr` line.
fn unknown_in_line(first: Option<Break>, known: &Names, line: &ReprLine) -> Option<Break>
    ensures { result ≡ fold earlier first (tagged 21 (unknown_bases known.now (line_parts line.now))) }
{
    match line {
        ReprLine::Base(_, _, None) => first,
        ReprLine::Base(_, _, Some(m)) => unknown(first, known, m),
        ReprLine::Variables(_, _, m) => unknown(first, known, m),
    }
}

/// Puts the bases of a `repr` line among names. An error is want of memory.
pub fn put_bases(known: &mut Names, line: &ReprLine) -> Result<(), AllocError>
    ensures { OnOk result (known.new ≡ with_names known.old (var_names (line_bases line.now))) }
{
    match line {
        ReprLine::Base(_, names, _) => known.put_declared(names.as_slice()),
        ReprLine::Variables(_, _, _) => Ok(()),
    }
}

/// The first break so far and of the rule that each `elmt` names a base of an earlier line. An error is want of memory.
fn element_breaks(
    alloc: Global,
    first: Option<Break>,
    lines: &[ReprLine],
) -> Result<Option<Break>, AllocError>
    ensures { IfOk result (λ f. f ≡ fold earlier first (tagged 21 (spec.rule_21 [] lines.now))) }
{
    let mut first = first;
    let mut known = Names::new(alloc);
    for line in lines {
        first = unknown_in_line(first, &known, line);
        put_bases(&mut known, line)?;
    }
    Ok(first)
}

/// The line of a base's mode that is for variables alone.
fn mode_for_variables(line: &ReprLine) -> Option<u32>
    ensures { result ≡ mode_for_variables line.now }
{
    match line {
        ReprLine::Base(_, _, Some(m)) => {
            if any_part(m, Test::ForVariables) {
                Some(m.line)
            } else {
                None
            }
        }
        _ => None,
    }
}

/// The first break so far and of the rule that a base's mode has no `elmt` and no attribute.
fn base_mode_breaks(first: Option<Break>, lines: &[ReprLine]) -> Option<Break>
    ensures { result ≡ fold earlier first (tagged 22 (spec.rule_22 lines.now)) }
{
    let mut first = first;
    for line in lines {
        if let Some(at) = mode_for_variables(line) {
            first = noted(first, at, 22);
        }
    }
    first
}

/// Whether `local` stands in a `repr` line elsewhere than as the first word of a declared variable's mode.
fn has_stray_local(line: &ReprLine) -> bool
    ensures { result ≡ spec.has_stray_local line.now }
{
    match line {
        ReprLine::Base(_, _, None) => false,
        ReprLine::Base(_, _, Some(m)) => any_part(m, Test::Local),
        ReprLine::Variables(_, _, m) => any_inside(m, Test::Local),
    }
}

/// The line of the first token of a `repr` line.
fn line_of(line: &ReprLine) -> u32
    ensures { result ≡ spec.line_of line.now }
{
    match line {
        ReprLine::Base(at, _, _) => *at,
        ReprLine::Variables(at, _, _) => *at,
    }
}

/// The first break so far and of the rule on the places of `local`.
fn local_breaks(first: Option<Break>, lines: &[ReprLine]) -> Option<Break>
    ensures { result ≡ fold earlier first (tagged 25 (spec.rule_25 lines.now)) }
{
    let mut first = first;
    for line in lines {
        if has_stray_local(line) {
            first = noted(first, line_of(line), 25);
        }
    }
    first
}

/// Whether a mode in a `repr` line passes a test.
fn any_in_line(line: &ReprLine, test: Test) -> bool
    ensures { result ≡ list_any (tests.passes test) (line_parts line.now) }
{
    match line {
        ReprLine::Base(_, _, None) => false,
        ReprLine::Base(_, _, Some(m)) => any_part(m, test),
        ReprLine::Variables(_, _, m) => any_part(m, test),
    }
}

/// The first break so far and of a rule that a `repr` line breaks where one of its modes passes a test.
fn test_breaks(first: Option<Break>, rule: u8, test: Test, lines: &[ReprLine]) -> Option<Break>
    ensures { result ≡ fold earlier first (tagged rule (lines_where (λ l. list_any (tests.passes test) (line_parts l)) lines.now)) }
{
    let mut first = first;
    for line in lines {
        if any_in_line(line, test) {
            first = noted(first, line_of(line), rule);
        }
    }
    first
}

/// The first break so far and of the rules on modes. An error is want of memory.
pub fn mode_break(
    alloc: Global,
    first: Option<Break>,
    lines: &[ReprLine],
) -> Result<Option<Break>, AllocError>
    ensures { IfOk result (λ f. f ≡ fold earlier first (mode_breaks lines.now)) }
{
    let first = element_breaks(alloc, first, lines)?;
    let first = base_mode_breaks(first, lines);
    let first = local_breaks(first, lines);
    let first = test_breaks(first, 26, Test::StrayAttribute, lines);
    let first = test_breaks(first, 27, Test::StrayElement, lines);
    Ok(test_breaks(first, 28, Test::OtherImages, lines))
}
