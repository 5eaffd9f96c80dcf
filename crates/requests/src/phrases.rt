//! A word with or without numbers, written as JSON.

ghost use Rattle.std.specs.Prelude.{◌∷◌, [], OnOk};
ghost use Rattle.wire.specs.Operations.{phrase};
ghost use Rattle.wire.specs.Vectors.{count};
ghost use Rattle.wire.specs.Writing.{IsWritten, tokens_of};

use json::Writer;
use std::alloc::AllocError;

/// Writes a word alone.
///
/// # Errors
/// `AllocError` if allocation fails.
pub fn put_word(out: &mut Writer, word: &str) -> Result<(), AllocError>
    ensures { OnOk result (IsWritten (tokens_of (phrase word.now [])) out.old out.new) }
{
    out.begin_array()?;
    out.string(word)?;
    out.end_array()
}

/// Writes a word and a number.
///
/// # Errors
/// `AllocError` if allocation fails.
pub fn put_one(out: &mut Writer, word: &str, number: u64) -> Result<(), AllocError>
    ensures { OnOk result (IsWritten (tokens_of (phrase word.now (count number ∷ []))) out.old out.new) }
{
    out.begin_array()?;
    out.string(word)?;
    out.u64(number)?;
    out.end_array()
}

/// Writes a word and two numbers.
///
/// # Errors
/// `AllocError` if allocation fails.
pub fn put_two(out: &mut Writer, word: &str, first: u64, second: u64) -> Result<(), AllocError>
    ensures { OnOk result (IsWritten (tokens_of (phrase word.now (count first ∷ count second ∷ []))) out.old out.new) }
{
    out.begin_array()?;
    out.string(word)?;
    out.u64(first)?;
    out.u64(second)?;
    out.end_array()
}
