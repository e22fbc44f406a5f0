//! The greatest numbers of the windows of a row.

ghost use Rattle.std.specs.Prelude.{◌≡◌, ◌≢◌, ℕ, ◌+◌, ◌<◌, ◌≤◌, ◌+ℤ◌, ◌^◌, FitsSigned, length, map};
ghost use Rattle.std.specs.Int.{w64, int_max};
ghost use Rattle.price_sums.specs.Along.{sum_at};
ghost use Rattle.break_layers.specs.Windows.{number_in, IsMostIn};

use crate::numbers::Number;

/// The number that stands where nothing is to be earned, below each sum of prices.
pub(crate) const NOTHING: i64 = i64::MIN;

/// What stands at a place of a row, and nothing behind the row's end.
pub(crate) fn number_at<N: Number>(row: &[N], at: usize) -> N
    ensures { (day : ℕ) → day < N.days → N.on day result ≡ number_in (map (N.on day) row.now) at }
{
    match row.get(at) {
        Some(number) => *number,
        None => N::nothing(),
    }
}

/// The sums that stand at a place of a list of sums, and nought behind its end.
pub(crate) fn sums_at<N: Number>(sums: &[N], at: usize) -> N
    ensures { (day : ℕ) → day < N.days → N.on day result ≡ sum_at (map (N.on day) sums.now) at }
{
    match sums.get(at) {
        Some(sum) => *sum,
        None => N::zero(),
    }
}

/// Sets a row to nothing.
pub(crate) fn clear<N: Number>(row: &mut [N])
    ensures { (day : ℕ) → day < N.days → (k : ℕ) → number_in (map (N.on day) row.new) k ≡ NOTHING }
{
    for k in 0..row.len() {
        row[k] = N::nothing();
    }
}

/// Adds to each number of a row the sum that stands at its place, and keeps nothing where that stands.
pub(crate) fn add_sums<N: Number>(row: &mut [N], sums: &[N])
    ensures nothing { (day : ℕ) → day < N.days → (k : ℕ) → k < length row.old → number_in (map (N.on day) row.old) k ≡ NOTHING → number_in (map (N.on day) row.new) k ≡ NOTHING }
    ensures total { (day : ℕ) → day < N.days → (k : ℕ) → k < length row.old → number_in (map (N.on day) row.old) k ≢ NOTHING → FitsSigned w64 (number_in (map (N.on day) row.old) k +ℤ sum_at (map (N.on day) sums.now) k) → number_in (map (N.on day) row.new) k ≡ number_in (map (N.on day) row.old) k +ℤ sum_at (map (N.on day) sums.now) k }
{
    for k in 0..row.len() {
        row[k] = row[k].with(&sums_at(sums, k));
    }
}

/// Raises each number of a row to the one that stands so many places behind it.
fn raise_by<N: Number>(row: &mut [N], by: usize)
    requires row { length row.old ≤ 65536 }
    requires by { by ≤ 65536 }
    ensures { (day : ℕ) → day < N.days → (k : ℕ) → number_in (map (N.on day) row.new) k ≡ int_max (number_in (map (N.on day) row.old) k) (number_in (map (N.on day) row.old) (k + by)) }
{
    for k in 0..row.len() {
        let more = number_at(row, k + by);
        row[k].raise(&more);
    }
}

/// Raises each number of a row to the greatest in the window of so many numbers that begins with it.
pub(crate) fn raise_to_windows<N: Number>(row: &mut [N], width: usize)
    requires row { length row.old ≤ 65536 }
    requires some { 1 ≤ width }
    requires short { width ≤ 65536 }
    ensures { (day : ℕ) → day < N.days → (k : ℕ) → IsMostIn (map (N.on day) row.old) k width (number_in (map (N.on day) row.new) k) }
{
    let mut wide = 1;
    while wide <= width / 2 {
        raise_by(row, wide);
        wide *= 2;
    }
    raise_by(row, width - wide);
}

/// Raises the numbers of a row from one place on and before another to those that stand so many places behind in a table.
pub(crate) fn raise_between<N: Number>(
    row: &mut [N],
    from: usize,
    to: usize,
    table: &[N],
    behind: usize,
)
    requires to { to ≤ length row.old }
    requires row { length row.old ≤ 65536 }
    requires behind { behind ≤ 2 ^ 40 }
    ensures inside { (day : ℕ) → day < N.days → (k : ℕ) → from ≤ k → k < to → number_in (map (N.on day) row.new) k ≡ int_max (number_in (map (N.on day) row.old) k) (number_in (map (N.on day) table.now) (behind + k)) }
    ensures before { (day : ℕ) (k : ℕ) → k < from → number_in (map (N.on day) row.new) k ≡ number_in (map (N.on day) row.old) k }
    ensures after { (day : ℕ) (k : ℕ) → to ≤ k → number_in (map (N.on day) row.new) k ≡ number_in (map (N.on day) row.old) k }
{
    for k in from..to {
        let more = number_at(table, behind + k);
        row[k].raise(&more);
    }
}

/// Raises each number of a row to the one that stands in another row so many places behind.
pub(crate) fn raise_to_row<N: Number>(most: &mut [N], row: &[N], by: u16)
    requires { length most.old ≤ 65536 }
    ensures { (day : ℕ) → day < N.days → (k : ℕ) → k < length most.old → number_in (map (N.on day) most.new) k ≡ int_max (number_in (map (N.on day) most.old) k) (number_in (map (N.on day) row.now) (k + by)) }
{
    for k in 0..most.len() {
        let more = number_at(row, k + usize::from(by));
        most[k].raise(&more);
    }
}
