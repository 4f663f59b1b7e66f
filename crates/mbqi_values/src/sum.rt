ghost use Rattle.std.specs.Prelude.{◌≡◌, ◌+ℤ◌};
ghost use Rattle.mbqi_values.specs.Sum.{IsBelow};

/// The exact sum of two numbers that are absolutely below 2^125, as all numbers of a decision are.
pub fn plus(a: i128, b: i128) -> i128
    requires left { IsBelow a 125 }
    requires right { IsBelow b 125 }
    ensures { result ≡ a +ℤ b }
{
    a + b
}
