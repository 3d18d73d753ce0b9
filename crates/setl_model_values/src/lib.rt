//! What a step of the meaning makes of values are values: what it reads, the parts of variables and their new wholes,
//! what it takes out, the items that it runs over, and the sets and tuples that it collects. No code that runs: laws alone.
#![tactic(auto)]

ghost use Rattle.setl_model_values.specs.ModelValues.{AreAdmitted, CollectionsAreValues, CombinationsGiveValues, ItemsAreValues, PartsGiveValues, ReadingsGiveValues, TakingsGiveValues, WholesGiveValues};

/// What is read of bytes is a value or `om`, and bytes are left.
pub fn readings_give_values()
    ensures { ReadingsGiveValues }
{
    setl_text::laws::denotations_are_exact();
    setl_set::laws::operations_have_their_members();
}

/// The part of a value at selectors that are values, its whole with another part there, and its whole with that part
/// combined are values or `om`.
pub fn parts_give_values()
    ensures part { PartsGiveValues }
    ensures whole { WholesGiveValues }
    ensures combined { CombinationsGiveValues }
{
    setl_operators_laws::operators_give_values();
}

/// What is taken out of a value, and what it then is, are values.
pub fn takings_give_values()
    ensures { TakingsGiveValues }
{}

/// The items of a source of values are values, where the places of a tuple or a string number fewer than 2^127.
pub fn items_are_values()
    ensures { ItemsAreValues }
{}

/// What is collected of values is a value.
pub fn collections_are_values()
    ensures admitted { AreAdmitted }
    ensures collected { CollectionsAreValues }
{
    setl_set::laws::operations_have_their_members();
}
