//! Classes of load/capacity.

ghost use Rattle.std.specs.Prelude.{◌≡◌, ◌≤◌, ◌^◌};
ghost use Rattle.congestion_cells.specs.Classes as words;

/// The borders between classes in percent: class n has a load above border n - 1, and no load is above border n. Below 100 % they
/// are 25 apart, above it at first 5.
pub const BORDERS: [u32; 11] = [0, 25, 50, 75, 100, 105, 110, 120, 135, 150, 200];

/// The class of a load on a capacity: how many of the borders it is above.
pub fn class_of(load: u128, capacity: u64) -> u8
    requires load { load ≤ 2 ^ 96 }
    requires capacity { capacity ≤ 2 ^ 56 }
    ensures { result ≡ words.class_of load capacity }
{
    let mut class = 0;
    for border in &BORDERS {
        class += u8::from(load * 100 > u128::from(capacity) * u128::from(*border));
    }
    class
}
