// Floats to whole numbers.
ghost use Rattle.std.specs.Prelude.{◌≡◌};
ghost use Rattle.std.specs.Float.Ieee.{to_signed};
ghost use Rattle.ops.specs.Round.{floor_to, ceil_to};

#[unsafe(no_mangle)]
pub extern "C" fn lv_truncate(x: f32) -> i32
    ensures { result ≡ to_signed 31 x }
{
    ops::truncate(x)
}

#[unsafe(no_mangle)]
pub extern "C" fn lv_floor(x: f32) -> i32
    ensures { result ≡ floor_to 31 x }
{
    ops::floor(x)
}

#[unsafe(no_mangle)]
pub extern "C" fn lv_ceil(x: f32) -> i32
    ensures { result ≡ ceil_to 31 x }
{
    ops::ceil(x)
}
