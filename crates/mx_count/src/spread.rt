//! The least, the mean and the greatest of numbers.

ghost use Rattle.std.specs.Prelude.{◌≡◌, ◌+◌, max, min};
ghost use Rattle.std.specs.List.{fold};
ghost use Rattle.mx_count.specs.Rows.{spread_of};

use crate::rows::{Value, mean_of};

pub(crate) fn spread_of(numbers: &[u64]) -> Value
    ensures { result ≡ spread_of numbers.now }
{
    let Some((first, rest)) = numbers.split_first() else {
        return Value::Absent;
    };
    let mean = mean_of(sum_of(*first, rest), rest.len() as u64 + 1);
    Value::Spread(least_of(*first, rest), mean, greatest_of(*first, rest))
}

fn least_of(first: u64, rest: &[u64]) -> u64
    ensures { result ≡ fold min first rest.now }
{
    let mut least = first;
    for number in rest {
        least = least.min(*number);
    }
    least
}

fn greatest_of(first: u64, rest: &[u64]) -> u64
    ensures { result ≡ fold max first rest.now }
{
    let mut greatest = first;
    for number in rest {
        greatest = greatest.max(*number);
    }
    greatest
}

fn sum_of(first: u64, rest: &[u64]) -> u128
    ensures { result ≡ fold (λ a b. a + b) first rest.now }
{
    let mut sum = u128::from(first);
    for number in rest {
        sum += u128::from(*number);
    }
    sum
}
