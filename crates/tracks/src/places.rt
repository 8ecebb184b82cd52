//! The index of a number in an ascending list.
ghost use Rattle.std.specs.Prelude.{◌≡◌, ◌<◌, ◌≤◌, length, slice_get, Some, IfOk, IfErr, Contains};
ghost use Rattle.std.specs.List.{insert};
ghost use Rattle.std.specs.List.Sorted.{IsPartitionPoint};
ghost use Rattle.tracks.specs.Inner.AscendingNumbers.{Ascends};
ghost use Rattle.tracks.specs.VesselsHeld.{with_number};

/// Returns how many of the numbers are below `number`, by bisection.
fn count_below(numbers: &[u32], number: u32) -> usize
    requires { Ascends numbers.now }
    ensures bound { result ≤ length numbers.now }
    ensures parts { IsPartitionPoint (λ n. n < number) (λ n. number ≤ n) numbers.now result }
{
    numbers.partition_point(|n| *n < number)
}

/// Returns the index of a number in an ascending list, or the index for inserting it.
pub(crate) fn index_of(numbers: &[u32], number: u32) -> Result<usize, usize>
    requires { Ascends numbers.now }
    ensures found { IfOk result (λ at. slice_get numbers.now at ≡ Some number) }
    ensures place { IfErr result (λ at. at ≤ length numbers.now) }
    ensures absent { IfErr result (λ at. ¬ Contains numbers.now number) }
    ensures more { IfErr result
        (λ at. with_number number numbers.now ≡ insert numbers.now at number) }
{
    let at = count_below(numbers, number);
    if at == numbers.len() {
        return Err(at);
    }
    if numbers[at] == number {
        Ok(at)
    } else {
        Err(at)
    }
}
