// Arithmetic on words that cannot leave its type.
ghost use Rattle.std.specs.Prelude.{◌≡◌, pos, ◌+ℤ◌, ◌-ℤ◌, ◌*ℤ◌, ◌≢◌, int_div};

pub(crate) fn plus(a: i32, b: i32) -> i64
    ensures { result ≡ a +ℤ b }
{
    i64::from(a) + i64::from(b)
}

pub(crate) fn minus(a: i32, b: i32) -> i64
    ensures { result ≡ a -ℤ b }
{
    i64::from(a) - i64::from(b)
}

pub(crate) fn times(a: i32, b: i32) -> i64
    ensures { result ≡ a *ℤ b }
{
    i64::from(a) * i64::from(b)
}

pub(crate) fn over(a: i32, b: i32) -> i64
    requires { b ≢ pos 0 }
    ensures { result ≡ int_div a b }
{
    i64::from(a) / i64::from(b)
}
