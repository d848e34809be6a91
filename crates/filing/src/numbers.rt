// Numbers printed in a row.
ghost use Rattle.std.specs.Prelude.{OnOk};
ghost use Rattle.std.specs.Iterator.{IsFinite};
ghost use Rattle.std.specs.Iterator.Runs.{WholeRun};
ghost use Rattle.filing.specs.Appending.{Appends};
ghost use Rattle.filing.specs.Showing.{numbers_text};

use std::alloc::AllocError;

// Prints the numbers that an iterator gives, each after a space.
pub(crate) fn print_each<I: Iterator<Item = u32> + Drop>(
    text: &mut String,
    numbers: I,
) -> Result<(), AllocError>
    requires can { I.can_next numbers }
    requires ends { IsFinite (I.remaining numbers) }
    ensures { OnOk result (WholeRun I.next_gives numbers (λ p. Appends text.old text.new (numbers_text p.items))) }
{
    for number in numbers {
        write!(text, " {number}")?;
    }
    Ok(())
}

/// Prints the numbers of a list, each after a space.
pub fn print_numbers(text: &mut String, numbers: &[u32]) -> Result<(), AllocError>
    ensures { OnOk result (Appends text.old text.new (numbers_text numbers.now)) }
{
    print_each(text, numbers.iter().copied())
}
