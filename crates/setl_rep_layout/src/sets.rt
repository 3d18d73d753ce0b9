//! The texts of sets of numbers.

ghost use Rattle.std.specs.FinSet as set;
ghost use Rattle.std.specs.Prelude.{◌≡◌, ◌++◌, if◌then◌else◌, IfOk, OnOk};
ghost use Rattle.setl_modes_dump.specs.Dump.{digits_of, digits_or_none, listed, numbers_from};
ghost use Rattle.setl_rep_forms.specs.Stands.{members_at, AreLiving};
ghost use Rattle.setl_rep_based.specs.Numbers.{numbers_in};
ghost use Rattle.setl_rep_layout.specs.Listing.{ListsExactly};
ghost use Rattle.setl_rep_layout.specs.Members.{values_of};
ghost use Rattle.setl_rep_layout.specs.Texts.{after_blanks, decimals};

use setl_base::Base;
use setl_rep_based::Numbers;
use setl_rep_forms::laws;
use setl_sparse::SparseSet;
use setl_text::push_decimal;
use std::alloc::{AllocError, Global};

/// Adds a digit for each block of the base, 1 for a member of the set; `-` where the base has no blocks. The error is want
/// of memory.
pub(crate) fn push_digits(
    base: &Base,
    numbers: Numbers<'_>,
    into: &mut Vec<u8>,
) -> Result<(), AllocError>
    ensures { OnOk result (into.new.items ≡ into.old.items ++ digits_or_none (members_at base.now (numbers_in numbers.entry)) (values_of base.now)) }
{
    let count = base.mark().count;
    if count == 0 {
        into.push(b'-')?;
        return Ok(());
    }
    push_each_digit(base, numbers, into)
}

// Adds a digit for each block.
fn push_each_digit(base: &Base, numbers: Numbers<'_>, into: &mut Vec<u8>) -> Result<(), AllocError>
    ensures { OnOk result (into.new.items ≡ into.old.items ++ digits_of (members_at base.now (numbers_in numbers.entry)) (values_of base.now)) }
{
    laws::numbers_stand_for_members();
    base.learn();
    let count = base.mark().count;
    for n in 0..count {
        into.push(digit(numbers.test(n + 1)))?;
    }
    Ok(())
}

fn digit(is_on: bool) -> u8
    ensures { result ≡ (if is_on then 49 else 48) }
{
    if is_on { b'1' } else { b'0' }
}

/// Adds the numbers of a set, rising, each behind a blank; or `-` where it has none. The error is want of memory.
pub(crate) fn push_numbers(
    alloc: Global,
    base: &Base,
    table: &SparseSet,
    into: &mut Vec<u8>,
) -> Result<(), AllocError>
    requires { AreLiving base.now table.now }
    ensures { OnOk result (into.new.items ≡ into.old.items ++ after_blanks (listed (numbers_from 1 (members_at base.now table.now) (values_of base.now)))) }
{
    laws::numbers_stand_for_members();
    base.learn();
    let list = rising(alloc, table)?;
    push_list(list.as_slice(), into)
}

/// The numbers of a set, rising. The error is want of memory.
pub(crate) fn rising(alloc: Global, table: &SparseSet) -> Result<Vec<u64>, AllocError>
    ensures { IfOk result (λ list. ListsExactly (λ n. set.contains table.now n) list.items) }
{
    table.numbers(alloc)
}

// Adds numbers, each behind a blank; or `-` where there are none.
fn push_list(list: &[u64], into: &mut Vec<u8>) -> Result<(), AllocError>
    ensures { OnOk result (into.new.items ≡ into.old.items ++ after_blanks (listed (decimals list.now))) }
{
    if list.is_empty() {
        return into.extend_from_slice(b" -");
    }
    push_each(list, into)
}

// Adds numbers, each behind a blank.
fn push_each(list: &[u64], into: &mut Vec<u8>) -> Result<(), AllocError>
    ensures { OnOk result (into.new.items ≡ into.old.items ++ after_blanks (decimals list.now)) }
{
    for n in list {
        into.push(b' ')?;
        push_decimal(into, *n)?;
    }
    Ok(())
}
